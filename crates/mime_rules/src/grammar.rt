//! The grammar of a list of rules, over its tokens.
ghost use Rattle.std.specs.Prelude.{◌≡◌, ◌<◌, ◌≤◌, ℕ, Bool, List, [], ◌++◌, Option, map, length, IfOk, true, false};
ghost use Rattle.std.specs.Option.{option_map, option_to_list};
ghost use Rattle.mime_rules.specs.RuleReading.{Read, read, wrong};
ghost use Rattle.mime_rules.specs.Tests.{Subject, any_of};
ghost use Rattle.mime_rules.specs.Tokens.{Token as Sign};
ghost use Rattle.mime_rules.specs.RuleGrammar.{list_of, priority_of, after_separators, separates, is_end, group_end, fault_of, item_end, line_end};
ghost use Rattle.mime_rules.specs.RuleFields.{Reads, ReadsExactly, token_of, meaning_of, meaning_of_test, ListSays, ItemSays, FactorSays, GroupSays, is_bang_next, behind_bang, with_bangs, negated_meaning, all_or_none, ended, behind_plus, is_plus_next};

use crate::rule::{Rule, Test};
use crate::stop::Stop;
use crate::tokens::Token;
use spool_types::WarningKind;
use std::alloc::{AllocError, Global};
use std::collections::VecDeque;

// The maximum nesting depth of groups.
const MOST_DEPTH: u8 = 16;

const USUAL_PRIORITY: u8 = 100;

/// Returns the priority that a line sets last, by default 100.
pub(crate) fn priority_of(tokens: &VecDeque<Token>) -> u8
    ensures value { result ≡ priority_of (map token_of tokens.now.items) }
{
    let mut priority = USUAL_PRIORITY;
    for i in 0..tokens.len() {
        if let Some(Token::Priority(n)) = tokens.get(i) {
            priority = *n;
        }
    }
    priority
}

/// Returns the rule of a line's list.
pub(crate) fn list_of(alloc: Global, tokens: VecDeque<Token>) -> Result<Rule, Stop>
    ensures value { ReadsExactly result (λ rule. read (meaning_of rule) []) (list_of (map token_of tokens.items)) }
{
    let mut rest = tokens;
    match list(alloc, &mut rest, MOST_DEPTH) {
        Err(stop) => Err(stop),
        Ok(rule) => match end_line(&rest) {
            Err(stop) => Err(stop),
            Ok(()) => Ok(rule),
        },
    }
}

// Checks that nothing follows the list of a line.
fn end_line(tokens: &VecDeque<Token>) -> Result<(), Stop>
    ensures { ReadsExactly result (λ _. read true []) (line_end (map token_of tokens.now.items)) }
{
    match tokens.front() {
        None => Ok(()),
        Some(token) => Err(Stop::Fault(fault_at(token))),
    }
}

// Returns the error for an unexpected token.
fn fault_at(token: &Token) -> WarningKind
    ensures { result ≡ fault_of (token_of token.now) }
{
    match token {
        Token::Fault(kind) => *kind,
        _ => WarningKind::BadRule,
    }
}

// Reads a list, up to the end or a closing parenthesis. `groups` is the number of groups that may be nested in it.
#[cycle(grammar)]
fn list(alloc: Global, tokens: &mut VecDeque<Token>, groups: u8) -> Result<Rule, Stop>
    ensures reads { Reads result (λ rule. read (meaning_of rule) (map token_of tokens.new.items)) (ListSays groups (map token_of tokens.old.items)) }
    ensures shorter { IfOk result (λ _. length tokens.new.items ≤ length tokens.old.items) }
{
    let mut items = Vec::new(alloc);
    drop_separators(tokens);
    'items: while !is_at_end(tokens) {
        match item(alloc, tokens, groups) {
            Err(stop) => return Err(stop),
            Ok(found) => {
                keep(&mut items, found)?;
                match end_item(tokens) {
                    Err(stop) => return Err(stop),
                    Ok(()) => drop_separators(tokens),
                }
            }
        }
    }
    Ok(any_of(items))
}

// Returns a rule that is true if any of these items is.
fn any_of(items: Vec<Rule>) -> Rule
    ensures { meaning_of result ≡ any_of (map meaning_of items.items) }
{
    Rule::Any(items)
}

// Appends the rule, if any.
fn keep(rules: &mut Vec<Rule>, found: Option<Rule>) -> Result<(), AllocError>
    ensures { IfOk result (λ _. map meaning_of rules.new.items ≡ map meaning_of rules.old.items ++ option_to_list (option_map meaning_of found)) }
{
    if let Some(rule) = found {
        rules.push(rule)?;
    }
    Ok(())
}

// Reads an item. Returns `None` if it consists of priorities only.
#[cycle(grammar)]
fn item(alloc: Global, tokens: &mut VecDeque<Token>, groups: u8) -> Result<Option<Rule>, Stop>
    ensures reads { Reads result (λ rule. read (option_map meaning_of rule) (map token_of tokens.new.items)) (ItemSays groups (map token_of tokens.old.items)) }
    ensures shorter { IfOk result (λ _. length tokens.new.items < length tokens.old.items) }
{
    let mut factors = Vec::new(alloc);
    'factors: loop {
        match factor(alloc, tokens, groups) {
            Err(stop) => return Err(stop),
            Ok(found) => {
                keep(&mut factors, found)?;
                if !takes_plus(tokens) {
                    return Ok(all_of(factors));
                }
            }
        }
    }
}

// Returns a rule that is true if all of these factors are, or `None` if the list is empty.
fn all_of(factors: Vec<Rule>) -> Option<Rule>
    ensures { option_map meaning_of result ≡ all_or_none (map meaning_of factors.items) }
{
    if factors.is_empty() {
        None
    } else {
        Some(Rule::All(factors))
    }
}

// Reads a factor. Returns `None` if it is a priority.
#[cycle(grammar)]
fn factor(alloc: Global, tokens: &mut VecDeque<Token>, groups: u8) -> Result<Option<Rule>, Stop>
    ensures reads { Reads result (λ rule. read (option_map meaning_of rule) (map token_of tokens.new.items)) (FactorSays groups (map token_of tokens.old.items)) }
    ensures shorter { IfOk result (λ _. length tokens.new.items < length tokens.old.items) }
{
    let is_negated = takes_bangs(tokens);
    match operand(alloc, tokens, groups) {
        Err(stop) => Err(stop),
        Ok(found) => {
            let rule = negated(alloc, is_negated, found)?;
            Ok(rule)
        }
    }
}

// Returns the rule or its negation.
fn negated(alloc: Global, negates: bool, found: Option<Rule>) -> Result<Option<Rule>, AllocError>
    ensures { IfOk result (λ rule. option_map meaning_of rule ≡ negated_meaning negates (option_map meaning_of found)) }
{
    match found {
        None => Ok(None),
        Some(rule) => {
            if negates {
                Ok(Some(Rule::Not(Box::new(alloc, rule)?)))
            } else {
                Ok(Some(rule))
            }
        }
    }
}

// Reads a factor that does not begin with `!`.
#[cycle(grammar)]
fn operand(alloc: Global, tokens: &mut VecDeque<Token>, groups: u8) -> Result<Option<Rule>, Stop>
    requires { is_bang_next (map token_of tokens.old.items) ≡ false }
    ensures reads { Reads result (λ rule. read (option_map meaning_of rule) (map token_of tokens.new.items)) (FactorSays groups (map token_of tokens.old.items)) }
    ensures shorter { IfOk result (λ _. length tokens.new.items < length tokens.old.items) }
{
    match tokens.pop_front() {
        None => Err(Stop::Fault(WarningKind::BadRule)),
        Some(Token::Test(test)) => Ok(Some(leaf(test))),
        Some(Token::Priority(_)) => Ok(None),
        Some(Token::Open) => group(alloc, tokens, groups),
        Some(Token::Fault(kind)) => Err(Stop::Fault(kind)),
        Some(Token::Gap) => Err(Stop::Fault(WarningKind::BadRule)),
        Some(Token::Comma) => Err(Stop::Fault(WarningKind::BadRule)),
        Some(Token::Plus) => Err(Stop::Fault(WarningKind::BadRule)),
        Some(Token::Bang) => Err(Stop::Fault(WarningKind::BadRule)),
        Some(Token::Close) => Err(Stop::Fault(WarningKind::BadRule)),
    }
}

fn leaf(test: Test) -> Rule
    ensures { meaning_of result ≡ meaning_of_test test }
{
    Rule::Leaf(test)
}

// Reads a group, after its opening parenthesis.
#[cycle(grammar)]
fn group(alloc: Global, tokens: &mut VecDeque<Token>, groups: u8) -> Result<Option<Rule>, Stop>
    ensures reads { Reads result (λ rule. read (option_map meaning_of rule) (map token_of tokens.new.items)) (GroupSays groups (map token_of tokens.old.items)) }
    ensures shorter { IfOk result (λ _. length tokens.new.items ≤ length tokens.old.items) }
{
    if groups == 0 {
        return Err(Stop::Fault(WarningKind::BadRule));
    }
    match list(alloc, tokens, groups - 1) {
        Err(stop) => Err(stop),
        Ok(rule) => {
            if takes_close(tokens) {
                Ok(Some(rule))
            } else {
                Err(Stop::Fault(WarningKind::BadRule))
            }
        }
    }
}

// Removes the parenthesis that closes a group, if it is next. Returns whether it was.
fn takes_close(tokens: &mut VecDeque<Token>) -> bool
    ensures value { (m : Subject → Bool) → group_end m (map token_of tokens.old.items) ≡ ended result m (map token_of tokens.new.items) }
    ensures shorter { length tokens.new.items ≤ length tokens.old.items }
{
    match tokens.pop_front() {
        Some(Token::Close) => true,
        _ => false,
    }
}

fn is_at_end(tokens: &VecDeque<Token>) -> bool
    ensures { result ≡ is_end (map token_of tokens.now.items) }
{
    match tokens.front() {
        None => true,
        Some(Token::Close) => true,
        Some(_) => false,
    }
}

// Checks that an item is followed by a separator or the end of the list.
fn end_item(tokens: &VecDeque<Token>) -> Result<(), Stop>
    ensures { ReadsExactly result (λ _. read true []) (item_end (map token_of tokens.now.items)) }
{
    match tokens.front() {
        None => Ok(()),
        Some(Token::Gap) => Ok(()),
        Some(Token::Comma) => Ok(()),
        Some(Token::Close) => Ok(()),
        Some(token) => Err(Stop::Fault(fault_at(token))),
    }
}

fn is_separator(token: &Token) -> bool
    ensures { result ≡ separates (token_of token.now) }
{
    match token {
        Token::Gap => true,
        Token::Comma => true,
        _ => false,
    }
}

fn drop_separators(tokens: &mut VecDeque<Token>)
    ensures value { map token_of tokens.new.items ≡ after_separators (map token_of tokens.old.items) }
    ensures bound { length tokens.new.items ≤ length tokens.old.items }
{
    while let Some(token) = tokens.front() {
        if !is_separator(token) {
            break;
        }
        tokens.pop_front();
    }
}

// Removes the plus that joins the next factor, if it is next. Returns whether it was.
fn takes_plus(tokens: &mut VecDeque<Token>) -> bool
    ensures value { map token_of tokens.new.items ≡ behind_plus (map token_of tokens.old.items) }
    ensures answer { result ≡ is_plus_next (map token_of tokens.old.items) }
    ensures bound { length tokens.new.items ≤ length tokens.old.items }
    ensures shorter { result ≡ true → length tokens.new.items < length tokens.old.items }
{
    match tokens.front() {
        Some(Token::Plus) => {
            tokens.pop_front();
            true
        }
        _ => false,
    }
}

// Removes all `!` at the front. Returns whether their number is odd.
fn takes_bangs(tokens: &mut VecDeque<Token>) -> bool
    ensures bangs { (groups : ℕ) (r : Read Sign (Option (Subject → Bool))) → FactorSays groups (map token_of tokens.new.items) r → FactorSays groups (map token_of tokens.old.items) (with_bangs result r) }
    ensures next { is_bang_next (map token_of tokens.new.items) ≡ false }
    ensures bound { length tokens.new.items ≤ length tokens.old.items }
{
    let mut is_odd = false;
    'bangs: while takes_bang(tokens) {
        is_odd = !is_odd;
    }
    is_odd
}

// Removes a `!`, if it is next. Returns whether it was.
fn takes_bang(tokens: &mut VecDeque<Token>) -> bool
    ensures value { map token_of tokens.new.items ≡ behind_bang (map token_of tokens.old.items) }
    ensures answer { result ≡ is_bang_next (map token_of tokens.old.items) }
    ensures bound { length tokens.new.items ≤ length tokens.old.items }
    ensures shorter { result ≡ true → length tokens.new.items < length tokens.old.items }
{
    match tokens.front() {
        Some(Token::Bang) => {
            tokens.pop_front();
            true
        }
        _ => false,
    }
}
