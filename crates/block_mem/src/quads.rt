// The bytes of a block, four by four.
//
// Four bytes that are unset or plain are kept in nine bytes. Four of which one was ever a pointer's part are kept whole,
// in a list of their own that has room for all from the start: so a store never takes memory, and a block of plain bytes
// touches none of that room.
ghost use Rattle.std.specs.Prelude.{◌≡◌, ◌<◌, ◌≤◌, ◌^◌, length, set, get_or, replicate, IfOk, IfSome, MatchOption};
ghost use Rattle.cc_base.specs.Words.{join};
ghost use Rattle.block_mem.specs.Quads.{byte_of_cell, quad_in, quad_of_cells, quad_of_plain, unset_quad, pick, with_byte};
ghost use Rattle.block_mem.specs.Access.{word_of, pointer_of};

use crate::access::{pointer_of, word_of};
use crate::value::{Byte, Value};
use std::alloc::{AllocError, Global};
use std::marker::Model;

/// One byte that is no pointer's part.
#[derive(Clone, Copy)]
pub(crate) enum Cell {
    Unset,
    Plain(u8),
}

/// Four bytes, or the number of the quad that holds them, its lowest byte first.
#[derive(Clone, Copy)]
pub(crate) enum Word {
    Simple {
        zero: Cell,
        one: Cell,
        two: Cell,
        three: Cell,
    },
    Mixed {
        a: u8,
        b: u8,
        c: u8,
        d: u8,
    },
}

/// Four bytes of any kind.
#[derive(Clone, Copy)]
pub(crate) struct Quad {
    pub(crate) zero: Byte,
    pub(crate) one: Byte,
    pub(crate) two: Byte,
    pub(crate) three: Byte,
}

/// Bytes, four by four. Contracts see the list of the quads.
#[derive(Drop)]
pub(crate) struct Quads {
    words: Vec<Word>,
    // the quads of the mixed words, in the order in which they became mixed
    mixed: Vec<Quad>,
}

impl Model for Quads {
    ghost use Rattle.std.specs.Prelude.{List, map, vec_capacity};
    ghost use Rattle.block_mem.specs.declared.quads.Quad.{Quad};
    ghost use Rattle.block_mem.specs.Codes.{coded_quad};
    ghost use Rattle.std.specs.Coded.{coded_list};

    ghost Value = { List Quad };

    ghost coded = { coded_list coded_quad };

    ghost use Rattle.block_mem.specs.Quads.{quad_in, IsPacked};

    ghost view = { λ s. map (quad_in s.mixed.items) s.words.items };

    ghost invariant = { λ s. IsPacked s.words.items s.mixed.items (vec_capacity s.mixed) };
}

fn byte_of_cell(cell: Cell) -> Byte
    ensures { result ≡ byte_of_cell cell }
{
    match cell {
        Cell::Unset => Byte::Unset,
        Cell::Plain(x) => Byte::Plain(x),
    }
}

fn cell_of(byte: Byte) -> Option<Cell>
    ensures { IfSome result (λ cell. byte_of_cell cell ≡ byte) }
{
    match byte {
        Byte::Unset => Some(Cell::Unset),
        Byte::Plain(x) => Some(Cell::Plain(x)),
        Byte::Part { .. } => None,
    }
}

// One byte of four.
fn pick(quad: &Quad, which: usize) -> Byte
    ensures { result ≡ pick which quad.now }
{
    match which {
        0 => quad.zero,
        1 => quad.one,
        2 => quad.two,
        _ => quad.three,
    }
}

// The same of four that are no pointer's parts.
fn pick_cell(zero: Cell, one: Cell, two: Cell, three: Cell, which: usize) -> Cell
    ensures { byte_of_cell result ≡ pick which (quad_of_cells zero one two three) }
{
    match which {
        0 => zero,
        1 => one,
        2 => two,
        _ => three,
    }
}

// Four bytes with another one at a place.
fn with_byte(quad: Quad, which: usize, byte: Byte) -> Quad
    ensures { result ≡ with_byte which byte quad }
{
    match which {
        0 => Quad { zero: byte, ..quad },
        1 => Quad { one: byte, ..quad },
        2 => Quad { two: byte, ..quad },
        _ => Quad {
            three: byte,
            ..quad
        },
    }
}

fn number_of(a: u8, b: u8, c: u8, d: u8) -> usize
    ensures { result ≡ join a b c d }
{
    u32::from_le_bytes([a, b, c, d]) as usize
}

impl Quads {
    /// So many quads of unset bytes.
    pub(crate) fn new(alloc: Global, count: usize) -> Result<Quads, AllocError>
        requires { count ≤ 2 ^ 30 }
        ensures { IfOk result (λ q. q ≡ replicate count unset_quad) }
    {
        let unset = Word::Simple {
            zero: Cell::Unset,
            one: Cell::Unset,
            two: Cell::Unset,
            three: Cell::Unset,
        };
        let words = vec![in alloc; unset; count]?;
        let mixed = Vec::with_capacity(alloc, count)?;
        Ok(Quads { words, mixed })
    }

    /// The quad at a place.
    pub(crate) fn at(&self, at: usize) -> Quad
        requires { at < length self.now }
        ensures { result ≡ get_or self.now at unset_quad }
    {
        match self.words[at] {
            Word::Simple {
                zero,
                one,
                two,
                three,
            } => Quad {
                zero: byte_of_cell(zero),
                one: byte_of_cell(one),
                two: byte_of_cell(two),
                three: byte_of_cell(three),
            },
            Word::Mixed { a, b, c, d } => self.mixed[number_of(a, b, c, d)],
        }
    }

    /// Puts a quad of any bytes at a place. It takes no memory.
    pub(crate) fn put(&mut self, at: usize, quad: Quad)
        requires { at < length self.old }
        ensures { self.new ≡ set self.old at quad }
    {
        if let Word::Mixed { a, b, c, d } = self.words[at] {
            self.mixed[number_of(a, b, c, d)] = quad;
            return;
        }
        let [a, b, c, d] = (self.mixed.len() as u32).to_le_bytes();
        match self.mixed.push(quad) {
            Ok(()) => self.words[at] = Word::Mixed { a, b, c, d },
            Err(_) => unreachable!(),
        }
    }

    /// Puts four bytes that are no pointer's parts at a place. It takes no memory.
    fn put_cells(&mut self, at: usize, zero: Cell, one: Cell, two: Cell, three: Cell)
        requires { at < length self.old }
        ensures { self.new ≡ set self.old at (quad_of_cells zero one two three) }
    {
        if let Word::Simple { .. } = self.words[at] {
            self.words[at] = Word::Simple {
                zero,
                one,
                two,
                three,
            };
            return;
        }
        let quad = Quad {
            zero: byte_of_cell(zero),
            one: byte_of_cell(one),
            two: byte_of_cell(two),
            three: byte_of_cell(three),
        };
        self.put(at, quad);
    }

    /// Puts four plain bytes at a place. It takes no memory.
    pub(crate) fn put_plain(&mut self, at: usize, a: u8, b: u8, c: u8, d: u8)
        requires { at < length self.old }
        ensures { self.new ≡ set self.old at (quad_of_plain a b c d) }
    {
        self.put_cells(
            at,
            Cell::Plain(a),
            Cell::Plain(b),
            Cell::Plain(c),
            Cell::Plain(d),
        );
    }

    /// Puts one byte into the quad at a place. It takes no memory.
    pub(crate) fn put_byte(&mut self, at: usize, which: usize, byte: Byte)
        requires { at < length self.old }
        ensures { self.new ≡ set self.old at (with_byte which byte (get_or self.old at unset_quad)) }
    {
        let Some(cell) = cell_of(byte) else {
            let quad = with_byte(self.at(at), which, byte);
            self.put(at, quad);
            return;
        };
        let Word::Simple {
            zero,
            one,
            two,
            three,
        } = self.words[at]
        else {
            let quad = with_byte(self.at(at), which, byte);
            self.put(at, quad);
            return;
        };
        match which {
            0 => self.put_cells(at, cell, one, two, three),
            1 => self.put_cells(at, zero, cell, two, three),
            2 => self.put_cells(at, zero, one, cell, three),
            _ => self.put_cells(at, zero, one, two, cell),
        }
    }

    /// One byte of the quad at a place.
    pub(crate) fn byte(&self, at: usize, which: usize) -> Byte
        requires { at < length self.now }
        ensures { result ≡ pick which (get_or self.now at unset_quad) }
    {
        if let Word::Simple {
            zero,
            one,
            two,
            three,
        } = self.words[at]
        {
            return byte_of_cell(pick_cell(zero, one, two, three, which));
        }
        let quad = self.at(at);
        pick(&quad, which)
    }

    /// The word that the quad at a place stands for, where it does.
    pub(crate) fn word(&self, at: usize) -> Option<Value>
        requires { at < length self.now }
        ensures { let q = get_or self.now at unset_quad in result ≡ word_of q.zero q.one q.two q.three }
    {
        if let Word::Simple {
            zero: Cell::Plain(a),
            one: Cell::Plain(b),
            two: Cell::Plain(c),
            three: Cell::Plain(d),
        } = self.words[at]
        {
            return Some(Value::Int(u32::from_le_bytes([a, b, c, d])));
        }
        let quad = self.at(at);
        word_of(quad.zero, quad.one, quad.two, quad.three)
    }

    /// The pointer that the quad at a place stands for, where it does.
    pub(crate) fn pointer(&self, at: usize) -> Option<Value>
        requires { at < length self.now }
        ensures { let q = get_or self.now at unset_quad in result ≡ pointer_of q.zero q.one q.two q.three }
    {
        let quad = self.at(at);
        pointer_of(quad.zero, quad.one, quad.two, quad.three)
    }
}
