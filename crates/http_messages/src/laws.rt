//! Laws of the definition of the exchange.
ghost use Rattle.http_messages.specs.HeadLaws.{GivesOneAnswer, TellsHeads};

/// A whole head is never refused as a head, and where none stands one refusal is told, save in the
/// place that is left open.
pub fn whole_heads_are_not_refused()
    ensures { TellsHeads }
{}

/// An input asks for one thing, save in the place that is left open.
pub fn inputs_ask_one_thing()
    ensures { GivesOneAnswer }
{}
