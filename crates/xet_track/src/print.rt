//! The lines of replies.
ghost use Rattle.std.specs.Prelude.{◌≡◌, ◌++◌, OnErr, OnOk, codes};
ghost use Rattle.std.specs.Fmt.{decimal};
ghost use Rattle.xet_progress_state.specs.declared.step.TrackerReply.TheVariants.{Flag, Sums};
ghost use Rattle.xet_track.specs.Texts.{number_of_invalid, text_of_reply};

use itoa::Buffer;
use xet_base::{Invalid, OutOfMemory};
use xet_progress_state::TrackerReply;

/// Adds bytes: all or none.
pub(crate) fn add_bytes(out: &mut Vec<u8>, bytes: &[u8]) -> Result<(), OutOfMemory>
    ensures ok { OnOk result (out.new.items ≡ out.old.items ++ bytes.now) }
    ensures memory { OnErr result (out.new.items ≡ out.old.items) }
{
    if out.extend_from_slice(bytes).is_err() {
        return Err(OutOfMemory);
    }
    Ok(())
}

/// Adds a text: all or nothing.
pub(crate) fn add(out: &mut Vec<u8>, text: &str) -> Result<(), OutOfMemory>
    ensures ok { OnOk result (out.new.items ≡ out.old.items ++ text.now) }
    ensures memory { OnErr result (out.new.items ≡ out.old.items) }
{
    add_bytes(out, text.as_bytes())
}

/// Adds the digits of a number.
fn add_number(out: &mut Vec<u8>, number: u64) -> Result<(), OutOfMemory>
    ensures { OnOk result (out.new.items ≡ out.old.items ++ decimal number) }
{
    let mut buffer = Buffer::new();
    add(out, buffer.format(number))
}

/// The number of a refusal.
fn number_of(why: &Invalid) -> u64
    ensures { result ≡ number_of_invalid why.now }
{
    match why {
        Invalid::Finalized => 1,
        Invalid::ReversedRange { .. } => 2,
        Invalid::IdsUsedUp => 3,
        Invalid::DuplicateId { .. } => 4,
        Invalid::UnknownItem { .. } => 5,
        Invalid::UnknownFile { .. } => 6,
        Invalid::UnknownXorb { .. } => 7,
        Invalid::OtherSize { .. } => 8,
        Invalid::PastTotal { .. } => 9,
        Invalid::XorbCompleted { .. } => 10,
        Invalid::SumTooGreat { .. } => 11,
    }
}

/// Adds a line that ends with a number.
fn add_number_line(out: &mut Vec<u8>, front: &str, number: u64) -> Result<(), OutOfMemory>
    ensures { OnOk result (out.new.items ≡ out.old.items ++ (front.now ++ decimal number ++ codes "\n")) }
{
    add(out, front)?;
    add_number(out, number)?;
    add(out, "\n")
}

/// Adds the line of the sums.
fn add_sums(out: &mut Vec<u8>, completed: u64, total: u64) -> Result<(), OutOfMemory>
    ensures { OnOk result (out.new.items ≡ out.old.items ++ text_of_reply (Sums completed total)) }
{
    add_number(out, completed)?;
    add_number_line(out, " ", total)
}

/// The line of a flag.
fn flag_line(flag: bool) -> &'static str
    ensures { result.now ≡ text_of_reply (Flag flag) }
{
    if flag {
        return "true\n";
    }
    "false\n"
}

/// Adds the line of a reply.
pub(crate) fn add_reply(out: &mut Vec<u8>, reply: &TrackerReply) -> Result<(), OutOfMemory>
    ensures { OnOk result (out.new.items ≡ out.old.items ++ text_of_reply reply.now) }
{
    match reply {
        TrackerReply::Done => add(out, "ok\n"),
        TrackerReply::FileId(id) => add_number_line(out, "", *id),
        TrackerReply::Flag(flag) => add(out, flag_line(*flag)),
        TrackerReply::Sums { completed, total } => add_sums(out, *completed, *total),
        TrackerReply::Unfinished(_) => add(out, "unfinished\n"),
        TrackerReply::Refused(why) => add_number_line(out, "refused ", number_of(why)),
    }
}
