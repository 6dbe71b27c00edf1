//! The text that is written of a legal history.
ghost use Rattle.std.specs.Prelude.{◌≡◌, ◌++◌, IfOk, OnOk, string_bytes};
ghost use Rattle.ipmd_verify.specs.Verifying.{audit_lines, count_line, count_lines, verified_text};

use disclosure_audit::{AuditEntry, put_line};
use history_verify::{SubscriptionCount, Verified};
use std::alloc::{AllocError, Global};

/// A line for each subscription, and unless it is to be quiet the audit's lines behind them.
///
/// # Errors
/// Want of memory.
pub(crate) fn text_of(alloc: Global, quiet: bool, verified: &Verified) -> Result<String, AllocError>
    ensures { IfOk result (λ text. string_bytes text
        ≡ verified_text quiet verified.now.subs.items verified.now.audit.items) }
{
    let mut text = counts_text(alloc, verified.subs.as_slice())?;
    if !quiet {
        put_lines(&mut text, verified.audit.as_slice())?;
    }
    Ok(text)
}

/// The lines of counts, one after another.
fn counts_text(alloc: Global, counts: &[SubscriptionCount]) -> Result<String, AllocError>
    ensures { IfOk result (λ text. string_bytes text ≡ count_lines counts.now) }
{
    let mut text = String::new(alloc);
    'counts: for count in counts {
        let line = count_line(alloc, count)?;
        text.push_str(line.as_str())?;
    }
    Ok(text)
}

/// How much was disclosed to one subscription, as a line.
fn count_line(alloc: Global, count: &SubscriptionCount) -> Result<String, AllocError>
    ensures { IfOk result (λ line. string_bytes line ≡ count_line count.now) }
{
    let sub = count.sub;
    let name = count.name.as_str();
    let disclosed = count.disclosed;
    format!(in alloc; "sub {sub} {name} disclosed {disclosed}\n")
}

/// Adds the lines of the audit's entries, one after another.
fn put_lines(text: &mut String, entries: &[AuditEntry]) -> Result<(), AllocError>
    ensures { OnOk result (string_bytes text.new ≡ string_bytes text.old
        ++ audit_lines entries.now) }
{
    'entries: for entry in entries {
        put_line(text, entry)?;
    }
    Ok(())
}
