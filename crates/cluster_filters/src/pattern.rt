//! One regular expression, which is found anywhere in a text.

ghost use Rattle.std.specs.Prelude.{◌≡◌, true, false, IfOk, IfErr, OnOk, IfSome};
ghost use Rattle.cluster_filters.specs.Patterns.{is_pattern, is_found};
ghost use Rattle.cluster_filters.specs.Faults.{bad_place};

use crate::Memory;
use crate::fault::FilterFault;
use regex::{Error, Matcher, Regex};
use std::alloc::Global;
use std::marker::Model;

/// A compiled regular expression, which contracts see as its text.
#[derive(Drop)]
pub struct Pattern {
    regex: Regex,
}

impl Model for Pattern {
    ghost use Rattle.std.specs.Prelude.{◌≡◌, ℕ, List};
    ghost use Rattle.regex.specs.Patterns.{default_config};
    ghost use Rattle.regex.specs.Strings.{regex_source, regex_config, IsReadFromSource};

    ghost Value = { List ℕ };

    ghost view = { λ p. regex_source p.regex };

    ghost invariant = { λ p. (regex_config p.regex ≡ default_config) × IsReadFromSource p.regex };
}

impl Pattern {
    /// Compiles a regular expression in the syntax of Rust's `regex`. `BadPattern(0)` only if the text is none, or
    /// nests past the limit of `regex`. No such text is read. `Memory` comes only if memory runs out, or for a compiled
    /// regular expression past the room that `regex` grants one.
    pub fn read(alloc: Global, text: &str) -> Result<Pattern, FilterFault>
        ensures value { IfOk result (λ pattern. pattern ≡ text.now) }
        ensures taken { OnOk result (is_pattern text.now ≡ true) }
        ensures refused { IfErr result (λ fault. IfSome (bad_place fault)
            (λ place. (place ≡ 0) × (is_pattern text.now ≡ false))) }
    {
        Pattern::read_at(alloc, 0, text)
    }

    /// The same, with the index that `BadPattern` reports.
    pub(crate) fn read_at(alloc: Global, index: usize, text: &str) -> Result<Pattern, FilterFault>
        ensures value { IfOk result (λ pattern. pattern ≡ text.now) }
        ensures taken { OnOk result (is_pattern text.now ≡ true) }
        ensures refused { IfErr result (λ fault. IfSome (bad_place fault)
            (λ place. (place ≡ index) × (is_pattern text.now ≡ false))) }
    {
        match Regex::new(alloc, text) {
            Ok(regex) => Ok(Pattern { regex }),
            Err(Error::Syntax(_)) => Err(FilterFault::BadPattern(index)),
            Err(_) => Err(FilterFault::Memory),
        }
    }

    /// A search of it, for many texts. `Err` means out of memory.
    pub fn search(&self, alloc: Global) -> Result<Search<'_>, Memory>
        ensures { IfOk result (λ search. search ≡ self.now) }
    {
        let matcher = self.regex.matcher(alloc)?;
        Ok(Search {
            pattern: self,
            matcher,
        })
    }

    /// Whether it is found anywhere in the text. `Memory` only if memory runs out.
    pub fn found(&self, alloc: Global, text: &str) -> Result<bool, Memory>
        ensures { IfOk result (λ found. found ≡ is_found self.now text.now) }
    {
        Ok(self.search(alloc)?.found(text))
    }
}

/// The search of one pattern in many texts, which contracts see as the pattern's text. What it learns in a text it has
/// for the next.
#[derive(Drop)]
pub struct Search<'p> {
    pattern: &'p Pattern,
    matcher: Matcher<'p>,
}

impl<'p> Model for Search<'p> {
    ghost use Rattle.std.specs.Prelude.{ℕ, List};
    ghost use Rattle.cluster_filters.specs.Searches.{IsSearchOf};

    ghost Value = { List ℕ };

    ghost view = { λ s. s.pattern.now };

    ghost invariant = { λ s. IsSearchOf s.pattern.now s.matcher };
}

impl<'p> Search<'p> {
    /// Whether the pattern is found anywhere in the text. It takes no memory.
    pub fn found(&mut self, text: &str) -> bool
        ensures found { result ≡ is_found self.old text.now }
        ensures same { self.new ≡ self.old }
    {
        self.matcher.is_match(text)
    }
}
