// What a call has still to do.
ghost use Rattle.std.specs.Prelude.{◌≡◌, [], ◌∷◌, ◌++◌, ◌-◌, take, drop, vec_len, MatchOption, OnOk};
ghost use Rattle.clight_sem.specs.States.{whole, behind_loop, from_loop};
ghost use Rattle.mean_run.specs.Lefts.{seen, left_of, left_in};

use crate::item::{Item, is_loop};
use clight_unit::Statement;
use std::alloc::{AllocError, Global};

/// A part of what is left: the statements of a list from a place on, or one item.
#[derive(Clone, Copy)]
pub enum Entry<'u> {
    Statements(&'u [Statement], usize),
    One(Item<'u>),
}

/// What a call has still to do: the statements of a list from a place on, and then the entries that are held, the last one
/// first. So taking a statement moves a number, and the statements of a block are put before what is left by one entry.
#[derive(Drop)]
pub struct Left<'u> {
    current: &'u [Statement],
    next: usize,
    held: Vec<Entry<'u>>,
}

// The last entry.
fn last<'u>(held: &Vec<Entry<'u>>) -> Option<Entry<'u>>
    ensures { MatchOption result (held.now.items ≡ []) (λ e. held.now.items ≡ take (vec_len held.now - 1) held.now.items ++ e ∷ []) }
{
    let count = held.len();
    if count == 0 {
        None
    } else {
        Some(held[count - 1])
    }
}

// Holds the statements of a list from a place on, if there are any.
#[tactic(auto, using(crate::proofs::Lefts::left_rules))]
fn hold<'u>(held: &mut Vec<Entry<'u>>, list: &'u [Statement], next: usize) -> Result<(), AllocError>
    ensures { OnOk result (left_of held.new.items ≡ whole (drop next list.now) ++ left_of held.old.items) }
{
    if next < list.len() {
        held.push(Entry::Statements(list, next))?;
    }
    Ok(())
}

impl<'u> Left<'u> {
    /// These statements. It takes no memory.
    #[tactic(auto, using(crate::proofs::Lefts::left_rules))]
    pub fn new(alloc: Global, body: &'u [Statement]) -> Left<'u>
        ensures { left_in result ≡ whole body.now }
    {
        Left {
            current: body,
            next: 0,
            held: Vec::new(alloc),
        }
    }

    /// Puts these statements before what is left.
    #[tactic(auto, using(crate::proofs::Lefts::left_rules))]
    pub fn put_body(&mut self, body: &'u [Statement]) -> Result<(), AllocError>
        ensures { OnOk result (left_in self.new ≡ whole body.now ++ left_in self.old) }
    {
        hold(&mut self.held, self.current, self.next)?;
        self.current = body;
        self.next = 0;
        Ok(())
    }

    /// Puts this item before what is left.
    #[tactic(auto, using(crate::proofs::Lefts::left_rules))]
    pub fn put_item(&mut self, item: Item<'u>) -> Result<(), AllocError>
        ensures { OnOk result (left_in self.new ≡ seen item.entry ∷ left_in self.old) }
    {
        hold(&mut self.held, self.current, self.next)?;
        self.next = self.current.len();
        self.held.push(Entry::One(item))?;
        Ok(())
    }

    /// Takes the first item. None where nothing is left.
    #[tactic(auto, using(crate::proofs::Lefts::left_rules))]
    pub fn take(&mut self) -> Option<Item<'u>>
        ensures { MatchOption result ((left_in self.old ≡ []) × (left_in self.new ≡ [])) (λ first. left_in self.old ≡ seen first ∷ left_in self.new) }
    {
        if self.next < self.current.len() {
            let statement = &self.current[self.next];
            self.next += 1;
            return Some(Item::Whole(statement));
        }
        'entries: while let Some(entry) = self.held.pop() {
            match entry {
                Entry::One(item) => return Some(item),
                Entry::Statements(list, next) => {
                    if next < list.len() {
                        self.current = list;
                        self.next = next + 1;
                        return Some(Item::Whole(&list[next]));
                    }
                }
            }
        }
        None
    }

    /// Drops all up to and with the nearest loop item.
    #[tactic(auto, using(crate::proofs::Lefts::left_rules))]
    pub fn leave_loop(&mut self)
        ensures { left_in self.new ≡ behind_loop (left_in self.old) }
    {
        self.next = self.current.len();
        'entries: while let Some(entry) = self.held.pop() {
            if let Entry::One(item) = entry {
                if is_loop(&item) {
                    return;
                }
            }
        }
    }

    /// Drops all before the nearest loop item.
    #[tactic(auto, using(crate::proofs::Lefts::left_rules))]
    pub fn go_to_loop(&mut self)
        ensures { left_in self.new ≡ from_loop (left_in self.old) }
    {
        self.next = self.current.len();
        'entries: while let Some(entry) = last(&self.held) {
            if let Entry::One(item) = entry {
                if is_loop(&item) {
                    return;
                }
            }
            let _ = self.held.pop();
        }
    }
}
