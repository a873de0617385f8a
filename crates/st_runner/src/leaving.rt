//! EXIT, CONTINUE and RETURN: the frames that they remove.
ghost use Rattle.std.specs.Prelude.{◌≡◌, vec_capacity};
ghost use Rattle.st_runner.specs.inner.Leaving.{Leaves};
ghost use Rattle.st_tree.specs.Meaning.{Continues, Exits, Normal, Returns};

use crate::frame::Frame;

/// Ends the innermost loop of the running unit, or the unit where it has none.
pub fn exit_loop<'t>(work: &mut Vec<Frame<'t>>)
    ensures leaves { Leaves Exits Normal work.old.items work.new.items }
    ensures capacity { vec_capacity work.new ≡ vec_capacity work.old }
{
    while let Some(frame) = work.pop() {
        match frame {
            Frame::Rest(_, _) => {}
            Frame::Again(_, _, _) => return,
            Frame::Unit => {
                work.push_reserved(Frame::Unit);
                return;
            }
        }
    }
}

/// Ends a turn of the innermost loop of the running unit, or the unit where it has none.
pub fn continue_loop<'t>(work: &mut Vec<Frame<'t>>)
    ensures leaves { Leaves Continues Normal work.old.items work.new.items }
    ensures capacity { vec_capacity work.new ≡ vec_capacity work.old }
{
    while let Some(frame) = work.pop() {
        match frame {
            Frame::Rest(_, _) => {}
            Frame::Again(test, body, at) => {
                work.push_reserved(Frame::Again(test, body, at));
                return;
            }
            Frame::Unit => {
                work.push_reserved(Frame::Unit);
                return;
            }
        }
    }
}

/// Ends the running unit.
pub fn return_unit<'t>(work: &mut Vec<Frame<'t>>)
    ensures leaves { Leaves Returns Normal work.old.items work.new.items }
    ensures capacity { vec_capacity work.new ≡ vec_capacity work.old }
{
    while let Some(frame) = work.pop() {
        match frame {
            Frame::Rest(_, _) => {}
            Frame::Again(_, _, _) => {}
            Frame::Unit => {
                work.push_reserved(Frame::Unit);
                return;
            }
        }
    }
}
