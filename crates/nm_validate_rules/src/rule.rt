//! The rules that a configuration is judged by.

ghost use Rattle.std.specs.Prelude.{◌≡◌};
ghost use Rattle.nm_validate_rules.specs.Rule.{rule_number, rule_tag};

use nm_base::Tag;

/// A rule that a configuration is judged by, in the order in which violations are told.
#[derive(Clone, Copy)]
pub enum Rule {
    /// Each row has a value of its type (RFC 7950 section 9).
    ValueType,
    /// Each entry of a list has its keys, of their types (RFC 7950 section 7.8.2).
    Key,
    /// Mandatory leafs are there (RFC 7950 section 7.6.5).
    Mandatory,
    /// What a leafref refers to is there (RFC 7950 section 9.9).
    Leafref,
    /// No two entries have the same values in the leafs of a unique statement (RFC 7950 section 7.8.3).
    Unique,
    /// Lists and leaf-lists have entries enough (RFC 7950 section 7.7.5).
    MinElements,
    /// Lists and leaf-lists have no more entries than they may (RFC 7950 section 7.7.6).
    MaxElements,
    /// Mandatory choices have a node (RFC 7950 section 7.9.4).
    MandatoryChoice,
    /// No two cases of a choice have nodes (RFC 7950 section 7.9).
    OneCase,
}

impl Rule {
    /// Its place in the order of rules, from 1.
    pub fn number(self) -> u8
        ensures { result ≡ rule_number self }
    {
        match self {
            Rule::ValueType => 1,
            Rule::Key => 2,
            Rule::Mandatory => 3,
            Rule::Leafref => 4,
            Rule::Unique => 5,
            Rule::MinElements => 6,
            Rule::MaxElements => 7,
            Rule::MandatoryChoice => 8,
            Rule::OneCase => 9,
        }
    }

    /// The tag that tells a violation of it.
    pub fn tag(self) -> Tag
        ensures { result ≡ rule_tag self }
    {
        match self {
            Rule::ValueType | Rule::Key => Tag::InvalidValue,
            Rule::Mandatory | Rule::Leafref | Rule::MandatoryChoice => Tag::DataMissing,
            Rule::Unique | Rule::MinElements | Rule::MaxElements | Rule::OneCase => {
                Tag::OperationFailed
            }
        }
    }
}
