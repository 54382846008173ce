//! What a text says, with the bytes that say it.

use crate::span::Span;
use std::marker::Model;

/// A value, and the bytes of a text that say it. Contracts see the value alone: no rule speaks of places, and what texts say
/// is equal wherever they say it.
#[derive(Debug, Drop)]
pub struct Placed<T> {
    value: T,
    span: Span,
}

impl<T> Model for Placed<T> {
    ghost Value = { T };

    ghost view = { λ placed. placed.value };
}

ghost use Rattle.std.specs.Prelude.{◌≡◌, IfOk};
ghost use Rattle.sfc_base.specs.Names.{IsName};

use sfc_base::name::Name;
use std::alloc::{AllocError, Global};

impl<T> Placed<T> {
    /// The value that these bytes say.
    pub fn new(value: T, span: Span) -> Placed<T>
        ensures { result ≡ value }
    {
        Placed { value, span }
    }

    /// The value.
    pub fn value(&self) -> &T
        ensures { result.now ≡ self.now }
    {
        &self.value
    }

    /// The value without its place. It takes no memory.
    pub fn into_value(self) -> T
        ensures { result ≡ self }
    {
        let Placed { value, span: _ } = self;
        value
    }

    /// The bytes that say it.
    pub fn span(&self) -> Span {
        self.span
    }
}

impl Placed<Name> {
    /// The bytes of the name as they were written.
    pub fn spelling(&self) -> &[u8]
        ensures value { result.now ≡ self.now }
        ensures named { IsName self.now }
    {
        self.value.spelling()
    }

    /// The same name once more, without its place. The one error is that memory was refused.
    pub fn copy(&self, alloc: Global) -> Result<Name, AllocError>
        ensures { IfOk result (λ name. name ≡ self.now) }
    {
        self.value.copy(alloc)
    }
}
