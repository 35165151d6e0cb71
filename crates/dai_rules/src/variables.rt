//! The variables of a formula, or of an update with its right side.
ghost use Rattle.std.specs.Prelude.{◌≡◌, ◌≤◌, map, reverse, take, drop, length, find, OnOk, IfOk};
ghost use Rattle.dai_rules.specs.Naming.{no_variables, is_called as called, variable_in, number_of, noticed as noticed_by, own_number, bound_with};
ghost use Rattle.dai_rules.specs.Views.{naming_of, binding_from};

use dai_base::Spent;
use dai_syntax::{Binder, Name};
use std::alloc::Global;

/// The variables so far, each as the name at its first occurrence, and the numbers of those in scope: the bound
/// ones, innermost last, and the free ones.
#[derive(Drop)]
pub struct Naming<'a> {
    pub variables: Vec<&'a Name>,
    pub bound: Vec<usize>,
    pub free: Vec<usize>,
}

impl<'a> Naming<'a> {
    /// No variables.
    pub fn new(alloc: Global) -> Naming<'a>
        ensures { naming_of result ≡ no_variables }
    {
        Naming {
            variables: Vec::new(alloc),
            bound: Vec::new(alloc),
            free: Vec::new(alloc),
        }
    }

    /// No variables any more.
    pub fn clear(&mut self)
        ensures { naming_of self.new ≡ no_variables }
    {
        self.variables.clear();
        self.bound.clear();
        self.free.clear();
    }

    /// How many variables there are.
    pub fn count(&self) -> usize
        ensures { result ≡ length (naming_of self.now).variables }
    {
        self.variables.len()
    }

    /// How many variables are bound.
    pub fn depth(&self) -> usize
        ensures { result ≡ length (naming_of self.now).bound }
    {
        self.bound.len()
    }

    /// The variable that the name stands for.
    fn find(&self, name: &Name) -> Option<usize>
        ensures { result ≡ variable_in (naming_of self.now) name.now.text }
    {
        match last_called(&self.variables, &self.bound, 0, name) {
            Some(number) => Some(number),
            None => first_called(&self.variables, &self.free, name),
        }
    }

    /// The number of the variable at an occurrence. A name that stands for none is a new free one.
    pub fn notice(&mut self, name: &'a Name) -> Result<usize, Spent>
        ensures number { IfOk result (λ n. n ≡ number_of (naming_of self.old) name.now.text) }
        ensures noticed { OnOk result (naming_of self.new ≡ noticed_by (naming_of self.old) name.now) }
    {
        if let Some(number) = self.find(name) {
            return Ok(number);
        }
        let number = self.variables.len();
        self.free.push(number)?;
        self.variables.push(name)?;
        Ok(number)
    }

    /// The number of a variable of a quantifier whose own variables are bound from `start` on.
    pub fn bind(&mut self, start: usize, binder: &'a Binder) -> Result<usize, Spent>
        requires { start ≤ length self.old.bound.items }
        ensures number { IfOk result (λ n. n ≡ own_number (binding_from self.old start) binder.now) }
        ensures bound { OnOk result (binding_from self.new start ≡ bound_with (binding_from self.old start) binder.now) }
        ensures outside { OnOk result ((take start self.new.bound.items ≡ take start self.old.bound.items) × (self.new.free.items ≡ self.old.free.items) × (start ≤ length self.new.bound.items)) }
    {
        if let Some(number) = last_called(&self.variables, &self.bound, start, &binder.name) {
            return Ok(number);
        }
        let number = self.variables.len();
        self.bound.push(number)?;
        self.variables.push(&binder.name)?;
        Ok(number)
    }
}

/// Whether the variable has the name.
fn is_called(variables: &[&Name], number: usize, name: &Name) -> bool
    ensures { result ≡ called (map (λ x. x.now) variables.now) name.now.text number }
{
    match variables.get(number) {
        Some(variable) => name.text.as_bytes() == variable.text.as_bytes(),
        None => false,
    }
}

/// The last of these variables, from the place `start` on, that has the name.
fn last_called(variables: &[&Name], numbers: &[usize], start: usize, name: &Name) -> Option<usize>
    requires { start ≤ length numbers.now }
    ensures { result ≡ find (called (map (λ x. x.now) variables.now) name.now.text) (reverse (drop start numbers.now)) }
{
    let mut place = numbers.len();
    while place > start {
        place -= 1;
        if is_called(variables, numbers[place], name) {
            return Some(numbers[place]);
        }
    }
    None
}

/// The first of these variables that has the name.
fn first_called(variables: &[&Name], numbers: &[usize], name: &Name) -> Option<usize>
    ensures { result ≡ find (called (map (λ x. x.now) variables.now) name.now.text) numbers.now }
{
    for number in numbers {
        if is_called(variables, *number, name) {
            return Some(*number);
        }
    }
    None
}
