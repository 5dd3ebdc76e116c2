//! The items of an input, which come one after the other and are answered one after the other.
ghost use Rattle.std.specs.Prelude.{◌≡◌, ◌^◌, ◌≤◌, [], IfOk, IfErr, OnOk};
ghost use Rattle.register_core.specs.declared.answer.TheConstants.{MAX_REPLY_LENGTH};
ghost use Rattle.register_desk.specs.Items.{Serves};
ghost use Rattle.register_desk.specs.Run.{LeavesDesk, LeavesWriter};

use crate::desk::Desk;
use crate::end::End;
use crate::outcome::{Finish, Outcome};
use crate::runs::answer_item;
use register_core::Request;
use sqlite::Alter;
use std::io::Write;
use streams::Watched;

/// What came of an input.
#[derive(Clone, Copy)]
pub enum NextItem {
    /// A request, or `None` for what is none.
    Item(Option<Request>),
    /// No further item. So many bytes stood after the last one.
    End { rest: u64 },
}

/// A source of items, which it makes of what an input of type `I` gives.
pub trait Items<I> {
    ghost use Rattle.std.specs.Prelude.{◌≡◌, ◌<◌, ℕ, List, [], ◌∷◌, ◌++◌, Option, Ok, IfErr};
    ghost use Rattle.std.specs.Prelude.{IfSome, OnOk};
    ghost use Rattle.register_requests.specs.{declared.request.Request.Request, Request.IsRequest};
    ghost use Rattle.register_desk.specs.Items.{IsOfReading};
    ghost use Rattle.register_desk.specs.declared.end.End.{End};

    /// From the first place of the input to the second these items came.
    ghost came: { Self × I → Self × I → List (Option Request) → Type 0 };

    /// At the first place no further item came, and so many bytes that are none.
    ghost ends: { Self × I → Self × I → ℕ → Type 0 };

    /// At the first place no item could be read, for this reason.
    ghost fails: { Self × I → Self × I → End → Type 0 };

    /// A bound on the items that are to come.
    ghost left: { Self × I → ℕ };

    /// The source may be asked at this place.
    ghost is_ready: { Self × I → Type 0 };

    /// The next item.
    ///
    /// # Errors
    /// [`End::Memory`] or [`End::ReadFault`] where none could be read.
    fn next_item(&mut self, input: &mut I) -> Result<NextItem, End>
        requires { is_ready (self.old, input.old) }
        ensures ready { OnOk result (is_ready (self.new, input.new)) }
        ensures in_range { (item : Option Request) → result ≡ Ok (NextItem.Item item)
            → IfSome item IsRequest }
        ensures came { (item : Option Request) → result ≡ Ok (NextItem.Item item)
            → (start : Self × I) (items : List (Option Request))
            → came start (self.old, input.old) items
            → came start (self.new, input.new) (items ++ item ∷ []) }
        ensures less { (item : Option Request) → result ≡ Ok (NextItem.Item item)
            → left (self.new, input.new) < left (self.old, input.old) }
        ensures ends { (rest : ℕ) → result ≡ Ok (NextItem.End rest)
            → ends (self.old, input.old) (self.new, input.new) rest }
        ensures of_reading { IfErr result IsOfReading }
        ensures fails { IfErr result (fails (self.old, input.old) (self.new, input.new)) };
}

/// Answers the items that come, each before the next one is asked for, up to the end of the input
/// or to what ends it before. Each reply line is written and flushed before the next item is
/// applied. The outcome's `read` is 0.
///
/// # Errors
/// The outcome's end is that of [`answer_item`], or why no item could be read.
pub fn serve_items<I, T: Items<I>, W: Write, S: Alter>(
    source: &mut T,
    input: &mut I,
    writer: &mut Watched<W>,
    desk: &mut Desk<S>,
) -> Outcome
    requires ready { T.is_ready (source.old, input.old) }
    requires begins { T.came (source.old, input.old) (source.old, input.old) [] }
    // So that the bytes of so many replies are counted.
    requires bounded { T.left (source.old, input.old) ≤ 2 ^ 50 }
    // The bound is on the turns of this call alone.
    requires idles { writer.old.idle ≡ 0 }
    ensures serves { Serves T.came T.ends T.fails S.Store (source.old, input.old)
        (source.new, input.new) (W.contents writer.old.inner) (W.contents writer.new.inner)
        desk.old desk.new result.replies result.end }
    ensures writer { LeavesWriter W.contents writer.old writer.new result }
    ensures desk { LeavesDesk desk.old desk.new result.end }
    ensures uncounted { result.read ≡ 0 }
{
    let mut written: u64 = 0;
    let mut replies: u64 = 0;
    let end = loop {
        match source.next_item(input) {
            Ok(NextItem::Item(item)) => match answer_item(&item, writer, desk) {
                Ok(count) => {
                    written += count as u64;
                    replies += 1;
                }
                Err(stop) => {
                    written += stop.written as u64;
                    break Finish::Ended(stop.end);
                }
            },
            Ok(NextItem::End { rest }) => break Finish::AtEnd { rest },
            Err(end) => break Finish::Ended(end),
        }
    };
    Outcome {
        read: 0,
        written,
        replies,
        end,
    }
}
