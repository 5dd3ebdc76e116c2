//! What is kept of an accepted request, so that it acts once.
use crate::answer::Answer;
use crate::reply::{Refusal, Reply};
use register_requests::{Command, Name, Request, RequestNumber, command_text};

/// What is kept of an accepted request: who made it under which number, its command, and its reply.
#[derive(Clone, Copy)]
pub struct KeptReply {
    pub caller: Name,
    pub number: RequestNumber,
    pub command: Command,
    pub reply: Reply,
}

impl KeptReply {
    ghost use Rattle.std.specs.Prelude.{◌≡◌};
    ghost use Rattle.register_core.specs.KeptReply.{fits_its_command, kept_with};
    ghost use Rattle.register_core.specs.declared.reply.Reply.{Reply};
    ghost use Rattle.register_core.specs.Verdict.{answer_by, is_same_command, repeated};

    /// What is kept of the request with this reply.
    pub fn new(request: &Request, reply: Reply) -> KeptReply
        ensures { result ≡ kept_with request.now reply }
    {
        KeptReply {
            caller: request.caller,
            number: request.number,
            command: request.command,
            reply,
        }
    }

    /// Whether the reply has a key and a state exactly where the command is about a key.
    pub fn fits_its_command(&self) -> bool
        ensures { result ≡ fits_its_command self.now }
    {
        match self.command {
            Command::Advance | Command::SetPeriod { .. } => {
                self.reply.key == 0 && self.reply.state.is_none()
            }
            _ => self.reply.key > 0 && self.reply.state.is_some(),
        }
    }

    /// Whether this is the command of the request: each command has one text.
    fn has_command_of(&self, request: &Request) -> bool
        ensures { result ≡ is_same_command self.now.command request.now.command }
    {
        command_text(&self.command).as_bytes() == command_text(&request.command).as_bytes()
    }

    /// What this request is answered, which has the caller and the number of the one that is kept:
    /// the first reply where the commands are the same, and else [`Refusal::RequestReused`].
    pub fn answer_to_repeat(&self, request: &Request) -> Answer
        ensures { (new : Reply) → result ≡ answer_by (repeated self.now request.now.command) new }
    {
        if self.has_command_of(request) {
            Answer::Repeated(self.reply)
        } else {
            Answer::Refused(Refusal::RequestReused)
        }
    }
}
