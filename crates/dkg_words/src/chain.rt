//! The warning of blocks that a script's lives use and that make no chain.
ghost use Rattle.std.specs.Prelude.{◌≡◌, ◌+◌, ◌-◌, ◌^◌, ◌<◌, ◌++◌, ◌∷◌, [], ℕ, List, None, Some, IfOk, IsPermutation, IsTrue, MatchOption, OnOk, decimal, length};
ghost use Rattle.std.specs.List.Sorted.{IsNonDecreasingBy};
ghost use Rattle.dkg_reading.specs.Rows.{fields_in};
ghost use Rattle.dkg_words.specs.Chain.{IsChainWarning, IsPairAmong, are_same as are_same_of, block_line_from, block_lines as block_lines_of, chain_told, is_child as is_child_of, is_using as is_using_name, line_block as line_block_of, line_from as line_from_of, lines_told, lives_in, mark_all as mark_all_of, mark_at, mark_by as mark_by_of, pair_told, parent_number, place_behind as place_behind_of, text_blocks, used_of, why_apart, why_back as why_back_of, why_front as why_front_of};
ghost use Rattle.dkg_words.specs.Lines.{over_lines};
ghost use Rattle.dkg_words.specs.Turns.{AreFirstApart, AreFrontWords, AreInTurn, AreTurned, IsCountedOn, IsLineFront, NoneApartBelow};

use crate::before::counted;
use crate::lines::{behind, cut, first_number, line_number, number_or_zero, on_from, until};
use crate::own::find;
use crate::put::{put, put_number};
use dkg_reading::number;
use dkg_values::Mem;
use std::alloc::Global;

/// A block line: where it begins, its height, its parent's number where it has one, and whether a life uses it.
#[derive(Clone, Copy, Debug)]
pub(crate) struct Block {
    pub(crate) place: u64,
    pub(crate) height: u64,
    pub(crate) parent: Option<u64>,
    pub(crate) used: bool,
}

/// Why two used blocks are in no one chain.
#[derive(Clone, Copy, Debug, PartialEq, Eq)]
pub(crate) enum Why {
    /// They have one height.
    Twice,
    /// The second has another parent than the first, which is at the height below it.
    Loose,
}

/// Two used blocks that are in no one chain.
#[derive(Clone, Copy, Debug)]
pub(crate) struct Pair {
    pub(crate) one: Block,
    pub(crate) other: Block,
    pub(crate) why: Why,
}

/// The number of the parent's line, which stands behind the height.
fn parent(line: &[u8]) -> Option<u64>
    ensures { result ≡ parent_number line.now }
{
    match behind(line, b' ') {
        Some(height) => match behind(height, b' ') {
            Some(fields) => number(until(fields, b' ')),
            None => None,
        },
        None => None,
    }
}

/// The block of a line.
fn line_block(place: u64, line: &[u8]) -> Block
    ensures { result ≡ line_block_of place line.now }
{
    Block {
        place,
        height: first_number(line),
        parent: parent(line),
        used: false,
    }
}

/// The block line that begins at a place, if one does that is ended.
fn block_line(text: &[u8], place: u64) -> Option<&[u8]>
    ensures { MatchOption result (block_line_from text.now place ≡ None) (λ line. block_line_from text.now place ≡ Some line.now) }
{
    let (line, _) = cut(on_from(text, place), b'\n')?;
    if line.starts_with(b"block ".as_slice()) {
        Some(line)
    } else {
        None
    }
}

/// Where the line behind one begins.
fn place_behind(place: u64, line: &[u8]) -> u64
    ensures { result ≡ place_behind_of place line.now }
{
    counted(place.saturating_add(line.len() as u64))
}

/// How the line of a block begins that stands in turn: at the height above the block before it, which is its parent.
#[derive(Drop)]
pub(crate) struct Front {
    height: u64,
    parent: u64,
    words: Vec<u8>,
    /// Where the last digits of the height and of the parent's number stand in the words.
    height_end: usize,
    parent_end: usize,
}

impl Front {
    fn new(alloc: Global, height: u64, parent: u64) -> Mem<Front>
        ensures { IfOk result (λ front. IsLineFront height parent front) }
    {
        let mut words = Vec::new(alloc);
        put(&mut words, b"block ")?;
        put_number(&mut words, height)?;
        let height_end = words.len().saturating_sub(1);
        put(&mut words, b" ")?;
        put_number(&mut words, parent)?;
        let parent_end = words.len().saturating_sub(1);
        put(&mut words, b" ")?;
        Ok(Front {
            height,
            parent,
            words,
            height_end,
            parent_end,
        })
    }

    /// Goes on to the line behind.
    fn go_on(&mut self, alloc: Global) -> Mem<()>
        requires height_fits { self.old.height + 1 < 2 ^ 64 }
        requires parent_fits { self.old.parent + 1 < 2 ^ 64 }
        requires is_front { IsLineFront self.old.height self.old.parent self.old }
        ensures { OnOk result (IsLineFront (self.old.height + 1) (self.old.parent + 1) self.new) }
    {
        self.height += 1;
        self.parent += 1;
        if are_counted_on(&mut self.words, self.height_end, self.parent_end) {
            return Ok(());
        }
        self.renew(alloc)
    }

    /// Writes the words anew.
    fn renew(&mut self, alloc: Global) -> Mem<()>
        ensures { OnOk result (IsLineFront self.old.height self.old.parent self.new) }
    {
        *self = Front::new(alloc, self.height, self.parent)?;
        Ok(())
    }
}

/// Counts on both numbers in the words of a front, and says whether it has.
fn are_counted_on(words: &mut Vec<u8>, height_end: usize, parent_end: usize) -> bool
    requires height_in { height_end < length words.old.items }
    requires parent_in { parent_end < length words.old.items }
    ensures { (h p : ℕ) → h + 1 < 2 ^ 64 → p + 1 < 2 ^ 64 → AreFrontWords h p words.old.items height_end parent_end → IsTrue result
        → AreFrontWords (h + 1) (p + 1) words.new.items height_end parent_end }
{
    if !is_counted_on(words, height_end) {
        return false;
    }
    is_counted_on(words, parent_end)
}

/// Counts on the number whose last digit stands at a place, and says whether it has; where the number gets a digit more then, it hasn't.
fn is_counted_on(words: &mut Vec<u8>, last: usize) -> bool
    requires { last < length words.old.items }
    ensures counted { (a b : List ℕ) (n : ℕ) → n + 1 < 2 ^ 64 → words.old.items ≡ a ++ 32 ∷ (decimal n ++ b)
        → last + 1 ≡ length (a ++ 32 ∷ decimal n) → IsTrue result → IsCountedOn a b n words.new.items }
    ensures len { length words.new.items ≡ length words.old.items }
{
    for back in 0..last {
        let place = last - back;
        let digit = words[place];
        if digit != b'9' {
            if digit < b'0' || b'9' < digit {
                return false;
            }
            words[place] = digit + 1;
            return true;
        }
        words[place] = b'0';
    }
    false
}

/// Whether the block lines from a place on stand in turn, behind one that does.
fn go_on_in_turn(alloc: Global, text: &[u8], mut front: Front, place: u64) -> Mem<bool>
    requires is_first { front.parent ≡ 0 }
    requires fits { front.height < 2 ^ 64 }
    requires is_front { IsLineFront front.height front.parent front }
    ensures { IfOk result (λ are. IsTrue are → AreTurned front.height front.parent (block_lines_of text.now (length text.now - 1) place)) }
{
    let mut at = place;
    for done in 1..text.len() {
        let Some(line) = block_line(text, at) else {
            return Ok(true);
        };
        if !line.starts_with(front.words.as_slice()) {
            return Ok(false);
        }
        if front.height == u64::MAX {
            return Ok(false);
        }
        front.go_on(alloc)?;
        at = place_behind(at, line);
    }
    Ok(true)
}

/// Whether each block line from a place on but the first stands in turn, so that those that are used make a chain.
fn are_in_turn(alloc: Global, text: &[u8], place: u64) -> Mem<bool>
    ensures { IfOk result (λ are. IsTrue are → AreInTurn (block_lines_of text.now (length text.now) place)) }
{
    let Some(line) = block_line(text, place) else {
        return Ok(true);
    };
    let Some(height) = first_number(line).checked_add(1) else {
        return Ok(false);
    };
    let front = Front::new(alloc, height, 0)?;
    go_on_in_turn(alloc, text, front, place_behind(place, line))
}

/// The blocks of the block lines from a place on.
fn block_lines(alloc: Global, text: &[u8], place: u64) -> Mem<Vec<Block>>
    ensures { IfOk result (λ blocks. blocks.items ≡ block_lines_of text.now (length text.now) place) }
{
    let mut blocks = Vec::new(alloc);
    let mut at = place;
    for done in 0..text.len() {
        let Some(line) = block_line(text, at) else {
            return Ok(blocks);
        };
        blocks.push(line_block(at, line))?;
        at = place_behind(at, line);
    }
    Ok(blocks)
}

/// Marks the block of a number.
fn mark(blocks: &mut Vec<Block>, number: u64)
    ensures { blocks.new.items ≡ mark_at blocks.old.items number }
{
    let index = number as usize;
    if index < blocks.len() {
        blocks[index].used = true;
    }
}

/// Marks the blocks that a line's fields name.
fn mark_all(blocks: &mut Vec<Block>, fields: &[u8])
    ensures { blocks.new.items ≡ mark_all_of blocks.old.items (fields_in fields.now) }
{
    let mut rest = Some(fields);
    while let Some(more) = rest {
        mark(blocks, number_or_zero(until(more, b' ')));
        rest = behind(more, b' ');
    }
}

/// Whether a line of a life names blocks that the life uses.
fn is_using(name: &[u8]) -> bool
    ensures { result ≡ is_using_name name.now }
{
    name == b"final".as_slice()
        || name == b"held".as_slice()
        || name == b"processed".as_slice()
        || name == b"absent".as_slice()
}

/// Marks the blocks that a line of a life begins at, holds or is delivered.
fn mark_by(blocks: &mut Vec<Block>, line: &[u8])
    ensures { blocks.new.items ≡ mark_by_of blocks.old.items line.now }
{
    if !is_using(until(line, b' ')) {
        return;
    }
    let Some(fields) = behind(line, b' ') else {
        return;
    };
    mark_all(blocks, fields);
}

/// Marks the blocks that lives use.
fn use_all(blocks: &mut Vec<Block>, lives: &[u8])
    ensures { blocks.new.items ≡ over_lines mark_by_of blocks.old.items [] lives.now }
{
    let mut rest = lives;
    while let Some((line, more)) = cut(rest, b'\n') {
        mark_by(blocks, line);
        rest = more;
    }
}

/// The blocks that are used.
fn kept(alloc: Global, blocks: &[Block]) -> Mem<Vec<Block>>
    ensures { IfOk result (λ kept. kept.items ≡ used_of blocks.now) }
{
    let mut kept = Vec::new(alloc);
    for block in blocks {
        if block.used {
            kept.push(*block)?;
        }
    }
    Ok(kept)
}

fn sort(used: &mut Vec<Block>) -> Mem<()>
    ensures permutation { OnOk result (IsPermutation used.old.items used.new.items) }
    ensures rising { OnOk result (IsNonDecreasingBy (λ b. b.height) used.new.items) }
{
    Ok(used.sort_by_key(|block| block.height)?)
}

/// The used blocks, by height.
fn used(alloc: Global, blocks: &[Block]) -> Mem<Vec<Block>>
    ensures permutation { IfOk result (λ used. IsPermutation (used_of blocks.now) used.items) }
    ensures rising { IfOk result (λ used. IsNonDecreasingBy (λ b. b.height) used.items) }
{
    let mut used = kept(alloc, blocks)?;
    sort(&mut used)?;
    Ok(used)
}

/// The line from a place on.
fn line_from(text: &[u8], place: u64) -> &[u8]
    ensures { result.now ≡ line_from_of text.now place }
{
    until(on_from(text, place), b'\n')
}

/// Whether two lines say the same, so that they are one block.
fn are_same(text: &[u8], one: Block, other: Block) -> bool
    ensures { result ≡ are_same_of text.now one other }
{
    line_from(text, one.place) == line_from(text, other.place)
}

/// Whether a block's parent is that one.
fn is_child(text: &[u8], blocks: &[Block], block: Block, parent: Block) -> bool
    ensures { result ≡ is_child_of text.now blocks.now block parent }
{
    match block.parent {
        Some(number) => match blocks.get(number as usize) {
            Some(its) => are_same(text, *its, parent),
            None => false,
        },
        None => false,
    }
}

/// Why two used blocks, the first of which isn't above the second, are in no one chain.
fn why_of(text: &[u8], blocks: &[Block], one: Block, other: Block) -> Option<Why>
    ensures { result ≡ why_apart text.now blocks.now one other }
{
    if one.height == other.height {
        if are_same(text, one, other) {
            return None;
        }
        return Some(Why::Twice);
    }
    if other.height.saturating_sub(one.height) == 1 && !is_child(text, blocks, other, one) {
        return Some(Why::Loose);
    }
    None
}

/// Two used blocks that are in no one chain, by height the first such.
fn pair_in(text: &[u8], blocks: &[Block], used: &[Block]) -> Option<Pair>
    ensures { MatchOption result (NoneApartBelow text.now blocks.now used.now (length used.now))
        (λ pair. AreFirstApart text.now blocks.now used.now pair) }
{
    for index in 1..used.len() {
        let one = used[index - 1];
        let other = used[index];
        if let Some(why) = why_of(text, blocks, one, other) {
            return Some(Pair { one, other, why });
        }
    }
    None
}

/// A script's lives.
fn lives(text: &[u8]) -> &[u8]
    ensures { result.now ≡ lives_in text.now }
{
    match find(text, b"\nlife ") {
        Some(place) => on_from(text, place),
        None => &[],
    }
}

fn pair_from(alloc: Global, text: &[u8], place: u64) -> Mem<Option<Pair>>
    ensures { IfOk result (λ pair. IsPairAmong text.now (block_lines_of text.now (length text.now) place) pair) }
{
    if are_in_turn(alloc, text, place)? {
        return Ok(None);
    }
    let mut blocks = block_lines(alloc, text, place)?;
    use_all(&mut blocks, lives(text));
    let used = used(alloc, &blocks)?;
    Ok(pair_in(text, &blocks, &used))
}

/// Two used blocks of a script that are in no one chain, where there are such.
fn pair_of(alloc: Global, text: &[u8]) -> Mem<Option<Pair>>
    ensures { IfOk result (λ pair. IsPairAmong text.now (text_blocks text.now) pair) }
{
    match find(text, b"\nblock ") {
        Some(place) => pair_from(alloc, text, place),
        None => Ok(None),
    }
}

/// What stands before the height of the second block.
fn why_front(why: Why) -> &'static [u8]
    ensures { result.now ≡ why_front_of why }
{
    match why {
        Why::Twice => b": two blocks of height ",
        Why::Loose => b": the used block of height ",
    }
}

/// What stands behind it.
fn why_back(why: Why) -> &'static [u8]
    ensures { result.now ≡ why_back_of why }
{
    match why {
        Why::Twice => b" are used: the promise doesn't cover this run\n",
        Why::Loose => {
            b" has another parent than the used block below it: the promise doesn't cover this run\n"
        }
    }
}

fn put_lines(out: &mut Vec<u8>, text: &[u8], pair: Pair) -> Mem<()>
    ensures { OnOk result (out.new.items ≡ out.old.items ++ lines_told text.now pair) }
{
    put(out, b"warning: lines ")?;
    put_number(out, line_number(text, pair.one.place))?;
    put(out, b" and ")?;
    put_number(out, line_number(text, pair.other.place))
}

fn put_pair(out: &mut Vec<u8>, text: &[u8], pair: Pair) -> Mem<()>
    ensures { OnOk result (out.new.items ≡ out.old.items ++ pair_told text.now pair) }
{
    put_lines(out, text, pair)?;
    put(out, why_front(pair.why))?;
    put_number(out, pair.other.height)?;
    put(out, why_back(pair.why))
}

fn line_of(alloc: Global, text: &[u8], pair: Option<Pair>) -> Mem<Vec<u8>>
    ensures { IfOk result (λ line. line.items ≡ chain_told text.now pair) }
{
    let mut out = Vec::new(alloc);
    match pair {
        Some(pair) => put_pair(&mut out, text, pair)?,
        None => {}
    }
    Ok(out)
}

/// What is said of a script whose lives use blocks that make no chain: two of one height, or one whose parent isn't the used block below it. Of more
/// such pairs one is told whose second block stands lowest. Nothing where they make a chain. (Lines that say the same are one block. What stands behind
/// a cut counts too.)
pub fn chain_warning(alloc: Global, text: &[u8]) -> Mem<Vec<u8>>
    ensures { IfOk result (λ line. IsChainWarning text.now line.items) }
{
    let pair = pair_of(alloc, text)?;
    line_of(alloc, text, pair)
}
