//! What a session answers to a command.
ghost use Rattle.std.specs.Prelude.{◌≡◌};
ghost use Rattle.yices_session.specs.Replies.{reply_text};

/// The reply to a command.
#[derive(Debug, Drop)]
pub enum Reply {
    /// The command has no reply.
    Nothing,
    /// A check found a model.
    Sat,
    /// A check found that there is none.
    Unsat,
    /// A check passed its limit of turns.
    Unknown,
    /// No model is kept.
    NoModel,
    /// No core is kept.
    NoCore,
    /// This text: values under the model that is kept, the core that is kept, or the bytes of a string.
    Text(String),
}

impl Reply {
    /// What is printed: nothing, lines with their ends, or the bytes of a string.
    pub fn text(&self) -> &str
        ensures { result.now ≡ reply_text self.now }
    {
        match self {
            Reply::Nothing => "",
            Reply::Sat => "sat\n",
            Reply::Unsat => "unsat\n",
            Reply::Unknown => "unknown\n",
            Reply::NoModel => "no model\n",
            Reply::NoCore => "no core\n",
            Reply::Text(text) => text.as_str(),
        }
    }
}
