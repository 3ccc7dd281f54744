ghost use Rattle.std.specs.Prelude.{◌≡◌, ◌++◌, ℕ, List, None, OnOk};
ghost use Rattle.pt_run.specs.TableLines.{pair_line, live_lines, LivesAbove, handle_lines, HandlesAbove, slots_line};

use pt_session::Session;
use pt_show::Text;
use pt_text::push_text;
use std::alloc::AllocError;

fn push_pair(out: &mut Vec<u8>, name: &[u8], pair: (u64, u64)) -> Result<(), AllocError>
    ensures { OnOk result (out.new.items ≡ out.old.items ++ pair_line name.now pair) }
{
    push_text(out, name)?;
    pair.write(out)?;
    push_text(out, b"\n")
}

/// Appends the lines of the live numbers, ascending. After an `Err` part of them may stand there, as after each of
/// these calls.
pub(crate) fn push_lives(out: &mut Vec<u8>, session: &Session) -> Result<(), AllocError>
    ensures { OnOk result ((lives : List (ℕ × ℕ)) × LivesAbove session.now.rows None lives
        × (out.new.items ≡ out.old.items ++ live_lines lives)) }
{
    let mut above = None;
    while let Some(live) = session.live_after(above) {
        push_pair(out, b"live", live)?;
        above = Some(live.0);
    }
    Ok(())
}

/// Appends the lines of the live handles, ascending.
pub(crate) fn push_handles(out: &mut Vec<u8>, session: &Session) -> Result<(), AllocError>
    ensures { OnOk result ((handles : List (ℕ × ℕ)) × HandlesAbove session.now.handles None handles
        × (out.new.items ≡ out.old.items ++ handle_lines handles)) }
{
    let mut above = None;
    while let Some(pair) = session.handle_after(above) {
        push_pair(out, b"handle", pair)?;
        above = Some(pair.0);
    }
    Ok(())
}

/// Appends the line of the slots that are left.
pub(crate) fn push_slots(out: &mut Vec<u8>, left: u64) -> Result<(), AllocError>
    ensures { OnOk result (out.new.items ≡ out.old.items ++ slots_line left) }
{
    push_text(out, b"slots")?;
    left.write(out)?;
    push_text(out, b"\n")
}
