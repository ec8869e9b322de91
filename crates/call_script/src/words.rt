//! The words of calls, and the kinds of their arguments.
ghost use Rattle.std.specs.Prelude.{◌≡◌};
ghost use Rattle.std.specs.List.{list_any};
ghost use Rattle.std.specs.Str.{bytes_eq};
ghost use Rattle.call_script.specs.Calls as calls;
ghost use Rattle.call_script.specs.Calls.{form_of, later_words};
ghost use Rattle.call_script.specs.Judging.{call_named as named, named_among};
ghost use Rattle.yices_grammar.specs.Words.{is_among};

/// A call that a script can ask for.
#[derive(Clone, Copy, Debug, PartialEq, Eq, Hash)]
pub enum CallWord {
    /// The type of truth values.
    BoolType,
    /// The term that is true.
    True,
    /// The term that is false.
    False,
    /// A new constant of a type.
    NewUninterpretedTerm,
    /// A new variable of a type.
    NewVariable,
    /// The negation of a term.
    Not,
    /// All of the terms are true.
    And,
    /// Some of the terms is true.
    Or,
    /// An odd number of the terms is true.
    Xor,
    /// The second term follows from the first.
    Implies,
    /// The two truth values are one.
    Iff,
    /// The second term where the first is true, else the third.
    Ite,
    /// The two terms are one.
    Eq,
    /// The two terms differ.
    Neq,
    /// No two of the terms are one.
    Distinct,
    /// The type of a term.
    TypeOfTerm,
    /// The text of a term.
    PpTerm,
    /// A term is referred to once more.
    IncrefTerm,
    /// A term is referred to once less.
    DecrefTerm,
    /// A type is referred to once more.
    IncrefType,
    /// A type is referred to once less.
    DecrefType,
    /// How many terms are live.
    NumTerms,
    /// How many types are live.
    NumTypes,
    /// Frees what nothing reaches.
    GarbageCollect,
    /// Gives a name to a term.
    SetTermName,
    /// Gives a name to a type.
    SetTypeName,
    /// The term of a name.
    GetTermByName,
    /// The type of a name.
    GetTypeByName,
    /// The name of a term.
    GetTermName,
    /// The name of a type.
    GetTypeName,
    /// Takes a name of a term away.
    RemoveTermName,
    /// Takes a name of a type away.
    RemoveTypeName,
    /// A new context.
    NewContext,
    /// Frees a context.
    FreeContext,
    /// Takes all levels and formulas of a context away.
    ResetContext,
    /// Opens a level of a context.
    Push,
    /// Takes the newest level of a context away.
    Pop,
    /// What is known of a context's formulas.
    ContextStatus,
    /// Asserts a term in a context.
    AssertFormula,
    /// Checks the formulas of a context.
    CheckContext,
    /// Checks the formulas of a context together with assumptions.
    CheckContextWithAssumptions,
    /// The assumptions to blame.
    GetUnsatCore,
}

/// What an argument of a call is.
#[derive(Clone, Copy, Debug, PartialEq, Eq, Hash)]
pub enum ArgumentKind {
    /// A reference to a type.
    Type,
    /// A reference to a term.
    Term,
    /// A reference to a context.
    Context,
    /// A reference to a type or a term.
    TypeOrTerm,
    /// `true` or `false`.
    Flag,
    /// A limit of turns, or `whole`.
    Turns,
    /// A name in quotes.
    Name,
}

/// The calls, in the order of the manual.
const CALLS: [CallWord; 42] = [
    CallWord::BoolType,
    CallWord::True,
    CallWord::False,
    CallWord::NewUninterpretedTerm,
    CallWord::NewVariable,
    CallWord::Not,
    CallWord::And,
    CallWord::Or,
    CallWord::Xor,
    CallWord::Implies,
    CallWord::Iff,
    CallWord::Ite,
    CallWord::Eq,
    CallWord::Neq,
    CallWord::Distinct,
    CallWord::TypeOfTerm,
    CallWord::PpTerm,
    CallWord::IncrefTerm,
    CallWord::DecrefTerm,
    CallWord::IncrefType,
    CallWord::DecrefType,
    CallWord::NumTerms,
    CallWord::NumTypes,
    CallWord::GarbageCollect,
    CallWord::SetTermName,
    CallWord::SetTypeName,
    CallWord::GetTermByName,
    CallWord::GetTypeByName,
    CallWord::GetTermName,
    CallWord::GetTypeName,
    CallWord::RemoveTermName,
    CallWord::RemoveTypeName,
    CallWord::NewContext,
    CallWord::FreeContext,
    CallWord::ResetContext,
    CallWord::Push,
    CallWord::Pop,
    CallWord::ContextStatus,
    CallWord::AssertFormula,
    CallWord::CheckContext,
    CallWord::CheckContextWithAssumptions,
    CallWord::GetUnsatCore,
];

/// The words of the calls that aren't built.
const LATER_WORDS: [&str; 51] = [
    "real_type",
    "new_uninterpreted_type",
    "bv_type",
    "function_type",
    "neg",
    "add",
    "sub",
    "application",
    "update",
    "parse_rational",
    "scale",
    "arith_geq_atom",
    "arith_gt_atom",
    "arith_leq_atom",
    "arith_lt_atom",
    "bvconst",
    "bvnot",
    "bvneg",
    "bvadd",
    "bvsub",
    "bvmul",
    "bvdiv",
    "bvrem",
    "bvsdiv",
    "bvsrem",
    "bvsmod",
    "bvshl",
    "bvlshr",
    "bvashr",
    "bvand",
    "bvor",
    "bvxor",
    "bvconcat",
    "shift_left0",
    "shift_right0",
    "sign_extend",
    "zero_extend",
    "bvextract",
    "bvge_atom",
    "bvgt_atom",
    "bvle_atom",
    "bvlt_atom",
    "bvsge_atom",
    "bvsgt_atom",
    "bvsle_atom",
    "bvslt_atom",
    "get_model",
    "model_from_map",
    "free_model",
    "get_value",
    "implicant_for_formulas",
];

impl CallWord {
    /// The word as it is written.
    pub fn text(self) -> &'static str
        ensures { result.now ≡ (form_of self).text }
    {
        match self {
            CallWord::BoolType => "bool_type",
            CallWord::True => "true",
            CallWord::False => "false",
            CallWord::NewUninterpretedTerm => "new_uninterpreted_term",
            CallWord::NewVariable => "new_variable",
            CallWord::Not => "not",
            CallWord::And => "and",
            CallWord::Or => "or",
            CallWord::Xor => "xor",
            CallWord::Implies => "implies",
            CallWord::Iff => "iff",
            CallWord::Ite => "ite",
            CallWord::Eq => "eq",
            CallWord::Neq => "neq",
            CallWord::Distinct => "distinct",
            CallWord::TypeOfTerm => "type_of_term",
            CallWord::PpTerm => "pp_term",
            CallWord::IncrefTerm => "incref_term",
            CallWord::DecrefTerm => "decref_term",
            CallWord::IncrefType => "incref_type",
            CallWord::DecrefType => "decref_type",
            CallWord::NumTerms => "num_terms",
            CallWord::NumTypes => "num_types",
            CallWord::GarbageCollect => "garbage_collect",
            CallWord::SetTermName => "set_term_name",
            CallWord::SetTypeName => "set_type_name",
            CallWord::GetTermByName => "get_term_by_name",
            CallWord::GetTypeByName => "get_type_by_name",
            CallWord::GetTermName => "get_term_name",
            CallWord::GetTypeName => "get_type_name",
            CallWord::RemoveTermName => "remove_term_name",
            CallWord::RemoveTypeName => "remove_type_name",
            CallWord::NewContext => "new_context",
            CallWord::FreeContext => "free_context",
            CallWord::ResetContext => "reset_context",
            CallWord::Push => "push",
            CallWord::Pop => "pop",
            CallWord::ContextStatus => "context_status",
            CallWord::AssertFormula => "assert_formula",
            CallWord::CheckContext => "check_context",
            CallWord::CheckContextWithAssumptions => "check_context_with_assumptions",
            CallWord::GetUnsatCore => "get_unsat_core",
        }
    }

    /// The kinds of the first arguments, in order. All of them have to be there.
    pub fn fixed(self) -> &'static [ArgumentKind]
        ensures { result.now ≡ (form_of self).fixed }
    {
        match self {
            CallWord::BoolType
            | CallWord::True
            | CallWord::False
            | CallWord::And
            | CallWord::Or
            | CallWord::Xor
            | CallWord::Distinct
            | CallWord::NumTerms
            | CallWord::NumTypes
            | CallWord::NewContext => &[],
            CallWord::NewUninterpretedTerm
            | CallWord::NewVariable
            | CallWord::IncrefType
            | CallWord::DecrefType
            | CallWord::GetTypeName => &[ArgumentKind::Type],
            CallWord::Not
            | CallWord::TypeOfTerm
            | CallWord::PpTerm
            | CallWord::IncrefTerm
            | CallWord::DecrefTerm
            | CallWord::GetTermName => &[ArgumentKind::Term],
            CallWord::Implies | CallWord::Iff | CallWord::Eq | CallWord::Neq => &[
                ArgumentKind::Term,
                ArgumentKind::Term,
            ],
            CallWord::Ite => &[ArgumentKind::Term, ArgumentKind::Term, ArgumentKind::Term],
            CallWord::GarbageCollect => &[ArgumentKind::Flag],
            CallWord::SetTermName => &[ArgumentKind::Name, ArgumentKind::Term],
            CallWord::SetTypeName => &[ArgumentKind::Name, ArgumentKind::Type],
            CallWord::GetTermByName
            | CallWord::GetTypeByName
            | CallWord::RemoveTermName
            | CallWord::RemoveTypeName => &[ArgumentKind::Name],
            CallWord::FreeContext
            | CallWord::ResetContext
            | CallWord::Push
            | CallWord::Pop
            | CallWord::ContextStatus
            | CallWord::GetUnsatCore => &[ArgumentKind::Context],
            CallWord::CheckContext | CallWord::CheckContextWithAssumptions => &[
                ArgumentKind::Context,
                ArgumentKind::Turns,
            ],
            CallWord::AssertFormula => &[ArgumentKind::Context, ArgumentKind::Term],
        }
    }

    /// The kind of any number of arguments behind the first ones, if they may come.
    pub fn repeated(self) -> Option<ArgumentKind>
        ensures { result ≡ (form_of self).repeated }
    {
        match self {
            CallWord::And
            | CallWord::Or
            | CallWord::Xor
            | CallWord::Distinct
            | CallWord::CheckContextWithAssumptions => Some(ArgumentKind::Term),
            CallWord::GarbageCollect => Some(ArgumentKind::TypeOrTerm),
            _ => None,
        }
    }
}

/// The kind of the call's argument at that place, from 0; none where no argument may stand.
pub fn kind_at(word: CallWord, place: usize) -> Option<ArgumentKind>
    ensures { result ≡ calls.kind_at word place }
{
    match word.fixed().get(place) {
        Some(kind) => Some(*kind),
        None => word.repeated(),
    }
}

/// The first of the calls with that word.
fn call_among(calls: &[CallWord], word: &str) -> Option<CallWord>
    ensures { result ≡ named_among calls.now word.now }
{
    for call in calls {
        if call.text() == word {
            return Some(*call);
        }
    }
    None
}

/// The call with that word.
#[tactic(auto, unfolding(crate::specs::Judging::call_named))]
pub(crate) fn call_named(word: &str) -> Option<CallWord>
    ensures { result ≡ named word.now }
{
    call_among(CALLS.as_slice(), word)
}

fn is_one_of(words: &[&str], word: &str) -> bool
    ensures { result ≡ list_any (λ w. bytes_eq word.now w.now) words.now }
{
    words.iter().any(|w| word == *w)
}

/// Whether that is the word of a call that isn't built.
pub(crate) fn is_later(word: &str) -> bool
    ensures { result ≡ is_among later_words word.now }
{
    is_one_of(LATER_WORDS.as_slice(), word)
}
