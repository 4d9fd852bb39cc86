// A whole program is read, or it is told why there is none.
ghost use Rattle.std.specs.Prelude.{◌≡◌, ◌<◌, ◌^◌, ◌-◌, ◌↔◌, IsTrue, [], map, option_map};
ghost use Rattle.chill_tree.specs.ItemTree.{modulion_tree, program_tree};
ghost use Rattle.chill_parser.specs.Parsing.{IsPlaceIn, Parses, TokenAt};
ghost use Rattle.expr_parser.specs.Giving.{Gives};
ghost use Rattle.rules_model.specs.ItemReading.{modulion_piece_at, program_at};
ghost use Rattle.rules_model.specs.Nesting as nesting;
ghost use Rattle.rules_model.specs.Reading.{push, repeat};

use crate::item::read_modulion;
use chill_base::{List, Pos};
use chill_tree::tree::{Modulion, Tree};
use chill_tree::{Sign, Token, TokenKind, Word};
use expr_parser::{ParseRefusal, less, place, starts_name};
use std::alloc::Global;

/// The nesting that no token may reach.
const LIMIT: usize = 65;

/// How many levels of nesting may stand in one another.
const LEVELS: usize = 64;

/// The tree of a text's tokens.
///
/// It is too deep exactly where the nesting reaches 65, at the first token that does. Where it stays below and the
/// tokens have no tree, there is no program: the place is that of a token, or none for the end.
#[tactic(auto, using(crate::proofs::Parsing::parses))]
pub fn parse(alloc: Global, tokens: &[Token]) -> Result<Tree, ParseRefusal>
    ensures { Parses tokens.now result }
{
    if let Some(at) = first_deep(tokens) {
        return Err(ParseRefusal::TooDeep { at });
    }
    match read_program(alloc, tokens, LEVELS) {
        Ok(tree) => Ok(tree),
        Err(ParseRefusal::TooDeep { at }) => Err(ParseRefusal::NoProgram {
            at: token_place(tokens, Some(at)),
        }),
        Err(ParseRefusal::NoProgram { at }) => Err(ParseRefusal::NoProgram {
            at: token_place(tokens, at),
        }),
        Err(ParseRefusal::Memory) => Err(ParseRefusal::Memory),
    }
}

// The first token at which the nesting reaches its limit.
fn first_deep(tokens: &[Token]) -> Option<Pos>
    ensures { result ≡ nesting.first_deep 65 tokens.now }
{
    let mut room = LIMIT;
    for token in tokens {
        room = room_after(&token.kind, room);
        if room == 0 {
            return Some(token.at);
        }
    }
    None
}

// The levels of nesting that are left behind a token.
fn room_after(kind: &TokenKind, room: usize) -> usize
    requires { room < 2 ^ 64 - 1 }
    ensures { result ≡ nesting.room_after kind.now room }
{
    if opens(kind) {
        less(room)
    } else if closes(kind) {
        room + 1
    } else {
        room
    }
}

// Whether a token opens a level of nesting.
fn opens(kind: &TokenKind) -> bool
    ensures { result ≡ nesting.opens kind.now }
{
    match kind {
        TokenKind::Sign(Sign::Open | Sign::OpenBracket) => true,
        TokenKind::Word(Word::Module | Word::Region | Word::Proc | Word::Process) => true,
        TokenKind::Word(Word::If | Word::Case | Word::Do | Word::Begin | Word::On) => true,
        _ => false,
    }
}

// Whether a token closes a level of nesting.
fn closes(kind: &TokenKind) -> bool
    ensures { result ≡ nesting.closes kind.now }
{
    match kind {
        TokenKind::Sign(Sign::Close | Sign::CloseBracket) => true,
        TokenKind::Word(Word::End | Word::Fi | Word::Esac | Word::Od) => true,
        _ => false,
    }
}

// The place, if one of the tokens stands there.
fn token_place(tokens: &[Token], at: Option<Pos>) -> Option<Pos>
    ensures in_tokens { IsPlaceIn tokens.now result }
    ensures kept { IsPlaceIn tokens.now at → result ≡ at }
{
    let Some(place) = at else {
        return None;
    };
    if !stands_at(tokens, place) {
        return None;
    }
    at
}

// Whether one of the tokens stands at the place.
fn stands_at(tokens: &[Token], at: Pos) -> bool
    ensures { IsTrue result ↔ TokenAt tokens.now at }
{
    for token in tokens {
        if token.at == at {
            return true;
        }
    }
    false
}

// Reads a program, where so many levels of nesting are left behind its opening tokens.
#[tactic(auto, unfolding(rules_model::specs::ItemReading::program_at))]
fn read_program(alloc: Global, tokens: &[Token], inner: usize) -> Result<Tree, ParseRefusal>
    ensures { Gives program_tree result (program_at inner tokens.now) }
{
    let (modulions, rest) = each_modulion(alloc, tokens, inner, tokens.len())?;
    if modulions.is_empty() {
        return Err(ParseRefusal::NoProgram { at: place(rest) });
    }
    match rest {
        [token, ..] => Err(ParseRefusal::NoProgram { at: Some(token.at) }),
        [] => Ok(Tree { modulions }),
    }
}

// Reads modulion after modulion, at most so many.
#[tactic(auto, using(expr_parser::proofs::Repeats::repeats))]
fn each_modulion(
    alloc: Global,
    tokens: &[Token],
    inner: usize,
    limit: usize,
) -> Result<(List<Modulion>, &[Token]), ParseRefusal>
    ensures { Gives (λ x. (map modulion_tree x.0, x.1.now)) result (repeat (modulion_piece_at inner) push limit [] tokens.now) }
{
    let mut modulions = List::new(alloc);
    let mut rest = tokens;
    for _ in 0..limit {
        let Some((modulion, after)) = another_modulion(alloc, rest, inner)? else {
            return Ok((modulions, rest));
        };
        modulions.push(modulion)?;
        rest = after;
    }
    Ok((modulions, rest))
}

// Reads a modulion, if one begins here.
#[tactic(auto, unfolding(rules_model::specs::ItemReading::modulion_piece_at))]
fn another_modulion(
    alloc: Global,
    tokens: &[Token],
    inner: usize,
) -> Result<Option<(Modulion, &[Token])>, ParseRefusal>
    ensures { Gives (option_map (λ x. (modulion_tree x.0, x.1.now))) result (modulion_piece_at inner tokens.now) }
{
    if !starts_name(tokens) {
        return Ok(None);
    }
    let (modulion, rest) = read_modulion(alloc, tokens, inner)?;
    Ok(Some((modulion, rest)))
}
