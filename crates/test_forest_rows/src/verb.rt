//! The words that begin lines.

/// What a line says.
#[derive(Clone, Copy)]
pub enum Verb {
    Root,
    Child,
    Unit,
    Line,
    Chain,
    Pairs,
    Below,
    Ask,
    Release,
    Lose,
    Dispensable,
    Weaken,
    AllowWeak,
    Open,
    Close,
    OpenWeak,
    CloseWeak,
    Look,
    Node,
    Count,
    Pool,
    Born,
    Kept,
    Leave,
    Spend,
    Forget,
    Over,
    End,
    Unknown,
}

const VERBS: [(&str, Verb); 28] = [
    ("root", Verb::Root),
    ("child", Verb::Child),
    ("unit", Verb::Unit),
    ("line", Verb::Line),
    ("chain", Verb::Chain),
    ("pairs", Verb::Pairs),
    ("below", Verb::Below),
    ("ask", Verb::Ask),
    ("release", Verb::Release),
    ("lose", Verb::Lose),
    ("dispensable", Verb::Dispensable),
    ("weaken", Verb::Weaken),
    ("allowweak", Verb::AllowWeak),
    ("open", Verb::Open),
    ("close", Verb::Close),
    ("openweak", Verb::OpenWeak),
    ("closeweak", Verb::CloseWeak),
    ("look", Verb::Look),
    ("node", Verb::Node),
    ("count", Verb::Count),
    ("pool", Verb::Pool),
    ("born", Verb::Born),
    ("kept", Verb::Kept),
    ("leave", Verb::Leave),
    ("spend", Verb::Spend),
    ("forget", Verb::Forget),
    ("over", Verb::Over),
    ("end", Verb::End),
];

/// The verb that is spelled so. A table of all, since a proof of a match follows each comparison of a text.
pub fn verb_of(word: &str) -> Verb {
    for (name, verb) in &VERBS {
        if *name == word {
            return *verb;
        }
    }
    Verb::Unknown
}
