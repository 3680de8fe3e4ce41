//! The options of a job.
ghost use Rattle.std.specs.Prelude.{◌≡◌, [], true, List, None, Ok, IfOk, OnOk, OnErr, IsErrOf};
ghost use Rattle.std.specs.Option.{option_map};
ghost use Rattle.std.specs.Result.{IsOk, result_err};
ghost use Rattle.std.specs.String.{string_bytes};
ghost use Rattle.std.specs.Cow.{cow_str_bytes};
ghost use Rattle.filter_args.specs.Pairs.{Pair, is_option_name, put, value_of};
ghost use Rattle.filter_args.specs.OptionTexts.{reading, with_word};
ghost use Rattle.filter_args.specs.Printing.{printed};
ghost use Rattle.filter_args.specs.OptionFields.{Gives, pairs_of};

use crate::fault::OptionFault;
use crate::printing::push_pair;
use crate::reading::{pair_fault, read_pair, split_word};
use indexmap::IndexMap;
use std::alloc::{AllocError, Global};
use std::borrow::CowStr;
use std::marker::Model;

/// Options in the order of their first appearance, each name once.
#[derive(Drop)]
pub struct Options<'a> {
    pairs: IndexMap<&'a str, CowStr<'a, Global>>,
}

impl<'a> Model for Options<'a> {
    ghost use Rattle.std.specs.Prelude.{◌≡◌, true, List, ℕ};
    ghost use Rattle.filter_args.specs.Pairs.{are_options};
    ghost use Rattle.filter_args.specs.OptionFields.{pairs_of};

    ghost Value = { List (List ℕ × List ℕ) };

    ghost view = { λ a. pairs_of a.pairs.entries };

    ghost invariant = { λ a. are_options (pairs_of a.pairs.entries) ≡ true };
}

impl<'a> Options<'a> {
    /// Returns no options. It allocates nothing.
    pub fn empty(alloc: Global) -> Options<'a>
        ensures value { result ≡ [] }
    {
        Options {
            pairs: IndexMap::new(alloc),
        }
    }

    /// Reads a text of options, from left to right. An error of the text takes precedence over out of memory.
    pub fn parse(alloc: Global, text: &'a str) -> Result<Options<'a>, OptionFault>
        ensures value { Gives result (λ options. options) (reading text.now) }
        ensures memory { IsErrOf result OptionFault.Memory → IsOk (reading text.now) }
    {
        if let Some(fault) = first_fault(text) {
            return Err(fault);
        }
        let mut pairs = IndexMap::new(alloc);
        let mut rest = text;
        while !rest.is_empty() {
            let (word, behind) = split_word(rest);
            add_word(alloc, &mut pairs, word)?;
            rest = behind;
        }
        Ok(Options { pairs })
    }

    /// Gives a name a value. A name that is present keeps its position. An error changes nothing.
    pub fn insert(&mut self, name: &'a str, value: CowStr<'a, Global>) -> Result<(), AllocError>
        requires { is_option_name name.now ≡ true }
        ensures value { OnOk result (self.new ≡ put self.old (name.now, cow_str_bytes value.entry)) }
        ensures err { OnErr result (self.new ≡ self.old) }
    {
        self.pairs.insert(name, value)?;
        Ok(())
    }

    /// Returns the options as one text, with one blank between them and a backslash before each blank, quote and backslash of a value,
    /// and before a `{` at its start.
    pub fn print(&self) -> Result<String, AllocError>
        ensures value { IfOk result (λ text. string_bytes text ≡ printed self.now) }
        ensures read_back { reading (printed self.now) ≡ Ok self.now }
    {
        let mut text = String::new(*self.pairs.allocator());
        let mut pairs = self.pairs.iter();
        let Some((name, value)) = pairs.next() else {
            return Ok(text);
        };
        push_pair(&mut text, name, value.as_str())?;
        for (name, value) in pairs {
            text.push(' ')?;
            push_pair(&mut text, name, value.as_str())?;
        }
        Ok(text)
    }

    /// Returns the value of a name.
    pub fn get(&self, name: &str) -> Option<&str>
        ensures { option_map (λ value. value.now) result ≡ value_of name.now self.now }
    {
        let value = self.pairs.get(name)?;
        Some(value.as_str())
    }
}

// Returns the first error of a text of options from the left, if any.
fn first_fault(text: &str) -> Option<OptionFault>
    ensures { result ≡ result_err (reading text.now) }
{
    let mut rest = text;
    while !rest.is_empty() {
        let (word, behind) = split_word(rest);
        if let Some(fault) = word_fault(word) {
            return Some(fault);
        }
        rest = behind;
    }
    None
}

// Returns the error of a word, if any. An empty word has none.
fn word_fault(word: &str) -> Option<OptionFault>
    ensures { (options : List Pair) → result ≡ result_err (with_word options word.now) }
{
    if word.is_empty() {
        return None;
    }
    pair_fault(word)
}

// Inserts the pair of a word, unless the word is empty.
fn add_word<'a>(
    alloc: Global,
    pairs: &mut IndexMap<&'a str, CowStr<'a, Global>>,
    word: &'a str,
) -> Result<(), AllocError>
    requires { result_err (with_word (pairs_of pairs.old.entries) word.now) ≡ None }
    ensures value { OnOk result (with_word (pairs_of pairs.old.entries) word.now ≡ Ok (pairs_of pairs.new.entries)) }
{
    if word.is_empty() {
        return Ok(());
    }
    let (name, value) = read_pair(alloc, word)?;
    pairs.insert(name, value)?;
    Ok(())
}
