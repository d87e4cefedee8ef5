//! Verifying the plans of another planner.

ghost use Rattle.std.specs.Prelude.{◌≡◌, ◌<◌, ◌++◌, IfOk, OnOk, codes};
ghost use Rattle.std.specs.Fmt.{decimal};
ghost use Rattle.output.specs.Sent.{IsSent};
ghost use Rattle.replies.specs.Reply.{no_memory};
ghost use Rattle.replies.specs.ReplyText.{reply_text};
ghost use Rattle.engine.specs.Audits as spec;
ghost use Rattle.engine.specs.Audits.{audit, audit_status, audit_text};
ghost use Rattle.engine.specs.View.{audit_of};

use crate::auditing::{Audit, audit_plan};
use catalog::Catalog;
use memory::{Heap, push_number, push_str};
use output::{Out, send};
use replies::{reply_status, reply_text};
use std::alloc::AllocError;
use trailcheck::{Reason, Refusal, Verdict};

fn reason_number(reason: Reason) -> u64
    ensures { result ≡ spec.reason_number reason }
{
    match reason {
        Reason::Limit => 1,
        Reason::NoNode => 2,
        Reason::Misfit => 3,
        Reason::Unmet => 4,
        Reason::Code => 5,
        Reason::End => 6,
    }
}

fn push_refusal<A: Heap>(out: &mut Vec<u8, A>, refusal: Refusal) -> Result<(), AllocError>
    ensures { OnOk result (out.new.items ≡ out.old.items ++ (codes "refused line " ++ decimal refusal.line ++ codes " reason " ++ decimal (spec.reason_number refusal.reason) ++ codes "\n")) }
{
    push_str(out, "refused line ")?;
    push_number(out, refusal.line)?;
    push_str(out, " reason ")?;
    push_number(out, reason_number(refusal.reason))?;
    push_str(out, "\n")
}

fn push_unreadable<A: Heap>(out: &mut Vec<u8, A>, line: u64) -> Result<(), AllocError>
    ensures { OnOk result (out.new.items ≡ out.old.items ++ (codes "unreadable line " ++ decimal line ++ codes "\n")) }
{
    push_str(out, "unreadable line ")?;
    push_number(out, line)?;
    push_str(out, "\n")
}

fn push_verdict<A: Heap>(out: &mut Vec<u8, A>, verdict: Verdict) -> Result<(), AllocError>
    ensures { OnOk result (out.new.items ≡ out.old.items ++ spec.verdict_text verdict) }
{
    match verdict {
        Verdict::Accepted => push_str(out, "accepted\n"),
        Verdict::Refused(refusal) => push_refusal(out, refusal),
    }
}

// The text of an audit.
fn audit_text<A: Heap>(alloc: A, audit: &Audit<A>) -> Result<Vec<u8, A>, AllocError>
    ensures { IfOk result (λ text. text.items ≡ spec.audit_text (audit_of audit.now)) }
{
    let mut text = Vec::new(alloc);
    match audit {
        Audit::Replied(reply) => return reply_text(alloc, reply),
        Audit::Unreadable(line) => push_unreadable(&mut text, *line)?,
        Audit::Judged(verdict) => push_verdict(&mut text, *verdict)?,
    }
    Ok(text)
}

fn verdict_status(verdict: Verdict) -> u8
    ensures { result ≡ spec.verdict_status verdict }
{
    match verdict {
        Verdict::Accepted => 0,
        Verdict::Refused(_) => 3,
    }
}

// The exit status of an audit.
fn audit_status<A: Heap>(audit: &Audit<A>) -> u8
    ensures status { result ≡ spec.audit_status (audit_of audit.now) }
    ensures few { result < 8 }
{
    match audit {
        Audit::Replied(reply) => reply_status(reply),
        Audit::Unreadable(_) => 3,
        Audit::Judged(verdict) => verdict_status(*verdict),
    }
}

// The text of the audit of a plan, and its status.
fn audited<A: Heap>(
    alloc: A,
    catalog: &Catalog<A>,
    role: &str,
    text: &str,
    plan: &[u8],
) -> Result<(Vec<u8, A>, u8), AllocError>
    ensures { IfOk result (λ r. (r.0.items ≡ spec.audit_text (spec.audit catalog.now role.now text.now plan.now)) × (r.1 ≡ spec.audit_status (spec.audit catalog.now role.now text.now plan.now)) × (r.1 < 8)) }
{
    let audit = audit_plan(alloc, catalog, role, text, plan)?;
    Ok((audit_text(alloc, &audit)?, audit_status(&audit)))
}

/// Writes the audit of a plan's text for a role's query, and gives its status: 0 `accepted`, where the filters are the
/// planning list and the checker accepts code and trail; 3 `refused line N reason K`, by the first step that is refused
/// (0 for the filters and the code, one more than there are steps for the end), or `unreadable line N`, the first line that
/// cannot be read; else the refusal or denial of the text with its status, as `serve`; 7 out of memory, 8 a writer that
/// failed. No row is read. Nothing is written before the text is whole, and the writer is not flushed.
pub fn verify<A: Heap, W: Out>(
    alloc: A,
    catalog: &Catalog<A>,
    role: &str,
    text: &str,
    plan: &[u8],
    out: &mut W,
) -> u8
    // The whole text of the audit, and its status; or memory ran out, or the writer failed.
    ensures sent { let due = audit catalog.now role.now text.now plan.now in
        IsSent (W.taken out.old) (W.taken out.new) (W.failures out.old) (W.failures out.new) result (audit_status due) (audit_text due) (reply_text no_memory) }
{
    match audited(alloc, catalog, role, text, plan) {
        Ok((bytes, status)) => send(out, &bytes, status),
        Err(_) => send(out, b"refused 53200\n".as_slice(), 7),
    }
}
