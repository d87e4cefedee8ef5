//! Names with a comma and a space between them.

ghost use Rattle.std.specs.Prelude.{◌≡◌, ◌++◌, codes, IfOk, OnOk, map, string_bytes};
ghost use Rattle.std.specs.List.{flat_map};
ghost use Rattle.access_matrix.specs.Reasons as spec;

use memory::Heap;
use std::alloc::AllocError;

// Adds the names after the first, each after a comma.
fn push_further<A: Heap>(words: &mut String<A>, names: &[&str]) -> Result<(), AllocError>
    ensures { OnOk result (string_bytes words.new ≡ string_bytes words.old ++ flat_map (λ n. codes ", " ++ n.now) names.now) }
{
    for name in names {
        words.push_str(", ")?;
        words.push_str(name)?;
    }
    Ok(())
}

/// Names with a comma and a space between them.
pub(crate) fn joined<A: Heap>(alloc: A, names: &[&str]) -> Result<String<A>, AllocError>
    ensures { IfOk result (λ s. string_bytes s ≡ spec.joined (map (λ n. n.now) names.now)) }
{
    let mut words = String::new(alloc);
    let Some((first, others)) = names.split_first() else {
        return Ok(words);
    };
    words.push_str(first)?;
    push_further(&mut words, others)?;
    Ok(words)
}
