//! Variables by number.

ghost use Rattle.std.specs.Prelude.{◌≡◌, IfOk, OnOk};
ghost use Rattle.rl_machine.specs.Traces.{set, unset};
ghost use Rattle.rl_trace.specs.Values.{shown};
ghost use Rattle.rl_trace.specs.Variables.{far_value, store_of};
ghost use Rattle.rl_trace.specs.declared.value.Val.TheVariants as Val;

use crate::value::Val;
use rl_base::error::OutOfMemory;
use std::alloc::Global;

/// A number and the value that it was set to.
#[derive(Clone, Copy)]
struct Far<'b> {
    number: u32,
    value: Val<'b>,
}

/// The values of variables by number; a number that was never set has Undefined. Numbers below the count with which it was made have an
/// entry. What is set at others is listed, so that a large number takes no more memory than a small one.
#[derive(Drop)]
pub struct Variables<'b> {
    near: Vec<Val<'b>>,
    far: Vec<Far<'b>>,
}

impl<'b> Variables<'b> {
    /// Variables that were never set, with entries for the numbers below `count`. On `OutOfMemory` an allocation failed.
    pub fn new(alloc: Global, count: usize) -> Result<Variables<'b>, OutOfMemory>
        ensures { IfOk result (λ variables. store_of variables ≡ unset) }
    {
        Ok(Variables {
            near: Vec::from_elem(alloc, Val::Undefined, count)?,
            far: Vec::new(alloc),
        })
    }

    /// The value of a number without an entry.
    fn get_far(&self, number: u32) -> Val<'b>
        ensures { shown result ≡ far_value self.now.far.items number (shown Val.Undefined) }
    {
        let mut value = Val::Undefined;
        'far: for far in self.far.as_slice() {
            if far.number == number {
                value = far.value;
            }
        }
        value
    }

    /// The value of a number. It takes constant time where the number has an entry.
    pub fn get(&self, number: u32) -> Val<'b>
        ensures { shown result ≡ store_of self.now number }
    {
        match self.near.as_slice().get(number as usize) {
            Some(value) => *value,
            None => self.get_far(number),
        }
    }

    /// Sets a number. On `OutOfMemory` an allocation failed, and nothing changed.
    pub fn set(&mut self, number: u32, value: Val<'b>) -> Result<(), OutOfMemory>
        ensures { OnOk result (store_of self.new ≡ set (store_of self.old) number (shown value.entry)) }
    {
        let index = number as usize;
        if index < self.near.len() {
            self.near[index] = value;
            return Ok(());
        }
        self.far.push(Far { number, value })?;
        Ok(())
    }
}
