//! Queries over the store of `sales` that several rows share.

const ONE: &str = "SELECT id FROM deal WHERE id = 3";

const PAIR: &str = "SELECT deal.id FROM deal, region WHERE deal.id = 1";

const RIGHT: &str = "SELECT deal.id FROM deal, region WHERE region.id = 1";

const THREE: &str = "SELECT deal.id FROM deal, region, region r";

const BOTH: &str = "SELECT id FROM deal WHERE id = 3 AND owner = 'bob'";

const CHAIN: &str =
    "SELECT deal.id FROM deal, region, region r WHERE deal.region = region.id AND region.id = r.id";

const VALUE: &str =
    "SELECT deal.id FROM deal, region WHERE deal.region = region.id AND deal.region = 2";

const NEVER: &str = "SELECT deal.id FROM deal, region WHERE 1 = 2";

const LEFT: &str =
    "SELECT deal.id FROM deal LEFT JOIN region ON deal.region = region.id WHERE region.name = 'north'";

/// The query of that name, or the text itself.
pub fn query_text(text: &str) -> &str {
    match text {
        "ONE" => ONE,
        "PAIR" => PAIR,
        "RIGHT" => RIGHT,
        "THREE" => THREE,
        "BOTH" => BOTH,
        "CHAIN" => CHAIN,
        "VALUE" => VALUE,
        "NEVER" => NEVER,
        "LEFT" => LEFT,
        _ => text,
    }
}
