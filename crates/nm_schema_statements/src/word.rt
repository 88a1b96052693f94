//! Keywords.

ghost use Rattle.std.specs.Prelude.{◌≡◌, ◌↔◌, IsTrue};
ghost use Rattle.nm_schema_statements.specs.Word as spec;

/// What the keyword of a statement is, as far as this project reads it (RFC 7950 section 14).
#[derive(Clone, Copy)]
pub enum Word {
    Module,
    YangVersion,
    Namespace,
    Prefix,
    Import,
    Container,
    Presence,
    Leaf,
    LeafList,
    List,
    Key,
    Unique,
    Choice,
    Case,
    Type,
    Range,
    Length,
    Enum,
    Value,
    Bit,
    Position,
    FractionDigits,
    Path,
    Typedef,
    Grouping,
    Uses,
    Default,
    Mandatory,
    MinElements,
    MaxElements,
    Config,
    OrderedBy,
    /// A keyword that is read and skipped, with all that is within.
    Skipped,
    /// A keyword of YANG that this project leaves out.
    Unsupported,
    /// No keyword of YANG.
    Unknown,
}

impl Word {
    /// The keyword, and an empty text where the word stands for many.
    pub fn text(self) -> &'static str
        ensures { result.now ≡ spec.word_text self }
    {
        match self {
            Word::Module => "module",
            Word::YangVersion => "yang-version",
            Word::Namespace => "namespace",
            Word::Prefix => "prefix",
            Word::Import => "import",
            Word::Container => "container",
            Word::Presence => "presence",
            Word::Leaf => "leaf",
            Word::LeafList => "leaf-list",
            Word::List => "list",
            Word::Key => "key",
            Word::Unique => "unique",
            Word::Choice => "choice",
            Word::Case => "case",
            Word::Type => "type",
            Word::Range => "range",
            Word::Length => "length",
            Word::Enum => "enum",
            Word::Value => "value",
            Word::Bit => "bit",
            Word::Position => "position",
            Word::FractionDigits => "fraction-digits",
            Word::Path => "path",
            Word::Typedef => "typedef",
            Word::Grouping => "grouping",
            Word::Uses => "uses",
            Word::Default => "default",
            Word::Mandatory => "mandatory",
            Word::MinElements => "min-elements",
            Word::MaxElements => "max-elements",
            Word::Config => "config",
            Word::OrderedBy => "ordered-by",
            Word::Skipped => "",
            Word::Unsupported => "",
            Word::Unknown => "",
        }
    }

    /// A number that tells a word from the others.
    pub fn number(self) -> u8
        ensures { result ≡ spec.word_number self }
    {
        match self {
            Word::Module => 0,
            Word::YangVersion => 1,
            Word::Namespace => 2,
            Word::Prefix => 3,
            Word::Import => 4,
            Word::Container => 5,
            Word::Presence => 6,
            Word::Leaf => 7,
            Word::LeafList => 8,
            Word::List => 9,
            Word::Key => 10,
            Word::Unique => 11,
            Word::Type => 12,
            Word::Range => 13,
            Word::Length => 14,
            Word::Enum => 15,
            Word::Value => 16,
            Word::Bit => 17,
            Word::Position => 18,
            Word::FractionDigits => 19,
            Word::Path => 20,
            Word::Typedef => 21,
            Word::Grouping => 22,
            Word::Uses => 23,
            Word::Default => 24,
            Word::Mandatory => 25,
            Word::MinElements => 26,
            Word::MaxElements => 27,
            Word::Config => 28,
            Word::OrderedBy => 29,
            Word::Skipped => 30,
            Word::Unsupported => 31,
            Word::Unknown => 32,
            Word::Choice => 33,
            Word::Case => 34,
        }
    }

    /// Whether the two are one word.
    #[tactic(auto, using(crate::proofs::Words::same_words, crate::proofs::Words::same_itself))]
    pub fn same(self, other: Word) -> bool
        ensures value { result ≡ spec.same_word self other }
        ensures same { IsTrue result ↔ (self ≡ other) }
    {
        self.number() == other.number()
    }
}

#[tactic(auto, unfolding(crate::specs::Word::heading_word))]
fn heading_word(keyword: &str) -> Option<Word>
    ensures { result ≡ spec.heading_word keyword.now }
{
    match keyword {
        "module" => Some(Word::Module),
        "yang-version" => Some(Word::YangVersion),
        "namespace" => Some(Word::Namespace),
        "prefix" => Some(Word::Prefix),
        "import" => Some(Word::Import),
        _ => None,
    }
}

#[tactic(auto, unfolding(crate::specs::Word::node_word))]
fn node_word(keyword: &str) -> Option<Word>
    ensures { result ≡ spec.node_word keyword.now }
{
    match keyword {
        "container" => Some(Word::Container),
        "presence" => Some(Word::Presence),
        "leaf" => Some(Word::Leaf),
        "leaf-list" => Some(Word::LeafList),
        "list" => Some(Word::List),
        "key" => Some(Word::Key),
        "unique" => Some(Word::Unique),
        "choice" => Some(Word::Choice),
        "case" => Some(Word::Case),
        _ => None,
    }
}

#[tactic(auto, unfolding(crate::specs::Word::type_word))]
fn type_word(keyword: &str) -> Option<Word>
    ensures { result ≡ spec.type_word keyword.now }
{
    match keyword {
        "type" => Some(Word::Type),
        "range" => Some(Word::Range),
        "length" => Some(Word::Length),
        "enum" => Some(Word::Enum),
        "value" => Some(Word::Value),
        "bit" => Some(Word::Bit),
        "position" => Some(Word::Position),
        "fraction-digits" => Some(Word::FractionDigits),
        "path" => Some(Word::Path),
        _ => None,
    }
}

#[tactic(auto, unfolding(crate::specs::Word::shared_word))]
fn shared_word(keyword: &str) -> Option<Word>
    ensures { result ≡ spec.shared_word keyword.now }
{
    match keyword {
        "typedef" => Some(Word::Typedef),
        "grouping" => Some(Word::Grouping),
        "uses" => Some(Word::Uses),
        _ => None,
    }
}

#[tactic(auto, unfolding(crate::specs::Word::property_word))]
fn property_word(keyword: &str) -> Option<Word>
    ensures { result ≡ spec.property_word keyword.now }
{
    match keyword {
        "default" => Some(Word::Default),
        "mandatory" => Some(Word::Mandatory),
        "min-elements" => Some(Word::MinElements),
        "max-elements" => Some(Word::MaxElements),
        "config" => Some(Word::Config),
        "ordered-by" => Some(Word::OrderedBy),
        _ => None,
    }
}

#[tactic(auto, unfolding(crate::specs::Word::is_meta))]
fn is_meta(keyword: &str) -> bool
    ensures { result ≡ spec.is_meta keyword.now }
{
    match keyword {
        "organization" => true,
        "contact" => true,
        "description" => true,
        "reference" => true,
        "revision" => true,
        "revision-date" => true,
        "units" => true,
        "status" => true,
        _ => false,
    }
}

#[tactic(auto, unfolding(crate::specs::Word::is_aside))]
fn is_aside(keyword: &str) -> bool
    ensures { result ≡ spec.is_aside keyword.now }
{
    match keyword {
        "error-message" => true,
        "error-app-tag" => true,
        "rpc" => true,
        "action" => true,
        "notification" => true,
        "identity" => true,
        "extension" => true,
        _ => false,
    }
}

#[tactic(auto, unfolding(crate::specs::Word::is_left_out_node))]
fn is_left_out_node(keyword: &str) -> bool
    ensures { result ≡ spec.is_left_out_node keyword.now }
{
    match keyword {
        "must" => true,
        "when" => true,
        "pattern" => true,
        "augment" => true,
        "deviation" => true,
        "refine" => true,
        "anydata" => true,
        "anyxml" => true,
        _ => false,
    }
}

#[tactic(auto, unfolding(crate::specs::Word::is_left_out_part))]
fn is_left_out_part(keyword: &str) -> bool
    ensures { result ≡ spec.is_left_out_part keyword.now }
{
    match keyword {
        "include" => true,
        "submodule" => true,
        "belongs-to" => true,
        "feature" => true,
        "if-feature" => true,
        _ => false,
    }
}

fn has_colon(keyword: &str) -> bool
    ensures { result ≡ spec.has_colon keyword.now }
{
    keyword.as_bytes().iter().any(|byte| *byte == b':')
}

fn other_word(keyword: &str) -> Word
    ensures { result ≡ spec.other_word keyword.now }
{
    if has_colon(keyword) || is_meta(keyword) || is_aside(keyword) {
        return Word::Skipped;
    }
    if is_left_out_node(keyword) || is_left_out_part(keyword) {
        return Word::Unsupported;
    }
    Word::Unknown
}

/// What a keyword is.
#[tactic(auto, unfolding(crate::specs::Word::word_of))]
pub fn word_of(keyword: &str) -> Word
    ensures { result ≡ spec.word_of keyword.now }
{
    if let Some(word) = heading_word(keyword) {
        return word;
    }
    if let Some(word) = node_word(keyword) {
        return word;
    }
    if let Some(word) = type_word(keyword) {
        return word;
    }
    if let Some(word) = shared_word(keyword) {
        return word;
    }
    match property_word(keyword) {
        Some(word) => word,
        None => other_word(keyword),
    }
}
