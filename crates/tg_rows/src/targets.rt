//! The names to which the edges of one row lead, by number.
ghost use Rattle.std.specs.Prelude.{◌≡◌, [], Some, IfOk, IfSome, OnErr, true, length, slice_get, unwrap_or};
ghost use Rattle.std.specs.Ordering.{nat_cmp};
ghost use Rattle.std.specs.Cmp.Lexicographic.{slice_cmp};
ghost use Rattle.std.specs.List.Sorted.{IsStrictlySortedBy};
ghost use Rattle.std.specs.Option.{option_copied};
ghost use Rattle.tg_rows.specs.EdgeLists.{names_of, Extends};

use crate::shared_names::{Hint, SharedNames};
use std::alloc::{AllocError, Global};
use tg_names::Name;

/// Names by number: first those that are shared with other rows, then those of this row alone.
#[derive(Drop)]
pub struct Targets {
    shared: Option<SharedNames>,
    own: Vec<Name>,
}

/// The names, if there are such, with one more owner.
pub fn shared_with(names: Option<&SharedNames>) -> Result<Option<SharedNames>, AllocError>
    ensures { IfOk result (λ shared. shared ≡ option_copied names.entry) }
{
    match names {
        Some(names) => Ok(Some(names.clone()?)),
        None => Ok(None),
    }
}

impl Clone for Targets {
    ghost use Rattle.std.specs.Prelude.{◌≡◌};
    ghost use Rattle.tg_rows.specs.EdgeLists.{names_of};

    ghost is_clone = { λ targets copy. names_of copy ≡ names_of targets };

    fn clone(&self) -> Result<Targets, AllocError> {
        Ok(Targets {
            shared: shared_with(self.shared.as_ref())?,
            own: Vec::from_slice(*self.own.allocator(), self.own.as_slice())?,
        })
    }
}

impl Targets {
    /// The shared names, if there are such, and none besides.
    pub fn new(alloc: Global, shared: Option<SharedNames>) -> Targets
        ensures { names_of result ≡ unwrap_or shared [] }
    {
        Targets {
            shared,
            own: Vec::new(alloc),
        }
    }

    /// The names that are shared.
    pub fn shared(&self) -> Option<&SharedNames> {
        self.shared.as_ref()
    }

    /// The shared names, where there are no others.
    #[inline(always)]
    pub fn shared_alone(&self) -> Option<&SharedNames>
        ensures { IfSome result (λ names. names.now ≡ names_of self.now) }
    {
        if !self.own.is_empty() {
            return None;
        }
        self.shared.as_ref()
    }

    /// The shared names, where there are no others and they rise with their numbers.
    #[inline(always)]
    pub fn rising(&self) -> Option<&SharedNames>
        ensures names { IfSome result (λ names. names.now ≡ names_of self.now) }
        ensures rise { IfSome result
            (λ names. IsStrictlySortedBy (slice_cmp nat_cmp) (names_of self.now)) }
    {
        let names = self.shared_alone()?;
        if names.rise() { Some(names) } else { None }
    }

    /// The number of a name, where all names are shared and rise with their numbers, and the number is
    /// this one or is found at once.
    #[inline(always)]
    pub fn rising_number(&self, name: Name, likely: Option<usize>) -> Option<usize>
        ensures number { IfSome result
            (λ number. slice_get (names_of self.now) number ≡ Some name) }
        ensures rise { IfSome result
            (λ number. IsStrictlySortedBy (slice_cmp nat_cmp) (names_of self.now)) }
    {
        let names = self.rising()?;
        names.found_near(name, likely)
    }

    /// The number, where it is that of the name, all names are shared, and they rise with their numbers.
    #[inline(always)]
    pub fn rising_at(&self, number: Option<usize>, name: Name) -> Option<usize>
        ensures number { IfSome result
            (λ number. slice_get (names_of self.now) number ≡ Some name) }
        ensures rise { IfSome result
            (λ number. IsStrictlySortedBy (slice_cmp nat_cmp) (names_of self.now)) }
    {
        let names = self.rising()?;
        names.confirmed(number, name)
    }

    /// How many names are this row's alone.
    pub fn own_len(&self) -> usize {
        self.own.len()
    }

    // How many names are shared.
    fn shared_len(&self) -> usize
        ensures { result ≡ length (unwrap_or self.now.shared []) }
    {
        match &self.shared {
            Some(names) => names.len(),
            None => 0,
        }
    }

    /// The name with a number.
    pub fn at(&self, number: usize) -> Option<Name>
        ensures { result ≡ slice_get (names_of self.now) number }
    {
        match &self.shared {
            Some(names) if number < names.len() => names.at(number),
            Some(names) => self.own.get(number - names.len()).copied(),
            None => self.own.get(number).copied(),
        }
    }

    /// Whether a number is that of the name.
    #[inline(always)]
    pub fn is_at(&self, number: usize, name: Name) -> bool
        ensures { result ≡ true → slice_get (names_of self.now) number ≡ Some name }
    {
        match self.at(number) {
            Some(found) => found == name,
            None => false,
        }
    }

    // Where there is no name, takes the shared ones of a hint.
    fn take_names(&mut self, hint: Hint) -> Result<(), AllocError>
        ensures kept { Extends (names_of self.old) (names_of self.new) }
    {
        if self.shared.is_none() && self.own.is_empty() {
            self.shared = shared_with(hint.names)?;
        }
        Ok(())
    }

    // Puts a name behind the others, and gives its number. It fails where memory is refused, and
    // where the number would be none of the machine's.
    fn push(&mut self, name: Name) -> Result<usize, AllocError>
        ensures found { IfOk result
            (λ number. slice_get (names_of self.new) number ≡ Some name) }
        ensures kept { Extends (names_of self.old) (names_of self.new) }
    {
        let Some(number) = self.shared_len().checked_add(self.own.len()) else {
            return Err(AllocError);
        };
        self.own.push(name)?;
        Ok(number)
    }

    // A number that the name mostly has among the shared names. It decides no answer.
    fn shared_number(&self, name: Name) -> Option<usize> {
        self.shared.as_ref()?.find(name)
    }

    // A number of a name that is not that of a hint: that among the shared names, or else a new one.
    #[inline(never)]
    fn number_without_hint(&mut self, name: Name) -> Result<usize, AllocError>
        ensures found { IfOk result
            (λ number. slice_get (names_of self.new) number ≡ Some name) }
        ensures kept { Extends (names_of self.old) (names_of self.new) }
    {
        match self.shared_number(name) {
            Some(shared) if self.is_at(shared, name) => Ok(shared),
            _ => self.push(name),
        }
    }

    /// A number of a name: the likely one, if it is the name's, or else a new one.
    pub fn number_for(&mut self, name: Name, hint: Hint) -> Result<usize, AllocError>
        ensures found { IfOk result
            (λ number. slice_get (names_of self.new) number ≡ Some name) }
        ensures kept { Extends (names_of self.old) (names_of self.new) }
    {
        self.take_names(hint)?;
        match hint.number {
            Some(number) if self.is_at(number, name) => Ok(number),
            _ => self.number_without_hint(name),
        }
    }
}
