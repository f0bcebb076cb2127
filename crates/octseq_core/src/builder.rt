//! What octet sequences and builders can do.
ghost use Rattle.std.specs.Prelude.{◌≡◌, ℕ, Bool, true, Option, Some, List, [], ◌++◌, ◌+◌, ◌↔◌, take};
ghost use Rattle.std.specs.Prelude.{length, codes, Result, Ok, IsTrue, IsOk, IfOk, OnOk, OnErr};
ghost use Rattle.std.specs.Borrow.{GName, sem};
ghost use Rattle.octseq_core.specs.Lends.{lends_octets};
ghost use Rattle.octseq_core.specs.Appends.{Appends};
ghost use Rattle.octseq_core.specs.Limit.{IsWithin};

use std::alloc::{AllocError, Global};
use std::error::Error;
use std::fmt;

mod array_vec;
mod as_octets_mut;
mod bytes_mut;
mod rc_slice;
mod reference;
mod slice;
mod small_vec;
mod vec;

/// A sequence of octets.
///
/// If std's `AsRef` is in scope too, write `AsOctets::as_ref(&x)`.
pub trait AsOctets: Drop {
    // The octets that the value represents.
    ghost content: { Self → List ℕ };

    // The greatest length of a content of this type, or `None` if every length is possible.
    ghost limit: { Option ℕ };

    // Whether calls that make or fill a value of this type request memory.
    ghost asks: { Bool };

    // The names of the `&mut` borrows that the value holds. A call that changes the content keeps them, so that a
    // lender knows the final value of what it lent.
    ghost borrows: { Self → List GName } = { λ _. [] };

    /// Borrows the content.
    fn as_ref(&self) -> &[u8]
        ensures value { result.now ≡ content self.now }
        ensures within { IsWithin limit (length (content self.now)) };

    /// The length of the content in octets.
    final fn len(&self) -> usize
    where
        Self: Sized,
        ensures content { result ≡ length (content self.now) }
        ensures within { IsWithin limit result }
    {
        self.as_ref().len()
    }

    /// Whether the content has no octets.
    final fn is_empty(&self) -> bool
    where
        Self: Sized,
        ensures { IsTrue result ↔ (content self.now ≡ []) }
    {
        self.as_ref().is_empty()
    }
}

/// A sequence of octets whose content can be overwritten in place. It keeps its length.
pub trait AsOctetsMut: AsOctets {
    // The value with another content of the same length.
    ghost with_content: { Self → List ℕ → Self };

    /// Borrows the content mutably.
    fn as_mut(&mut self) -> &mut [u8]
        ensures* writes_back { sem 𝓛 (lends_octets Self.row with_content self.entry result) }
        ensures value { result.now ≡ Self.content self.old };

    // The content is then what was written.
    ghost written: { (x : Self) (octets : List ℕ) → length octets ≡ length (Self.content x)
        → Self.content (with_content x octets) ≡ octets };

    // The borrows that the value holds stay the same.
    ghost kept: { (x : Self) (octets : List ℕ) → Self.borrows (with_content x octets) ≡ Self.borrows x };
}

/// Two facts about a type of octet sequences.
pub trait OctetsLimit: AsOctets {
    /// The greatest length of a content in octets, or `None` if every length is possible.
    fn limit() -> Option<usize>
        ensures { result ≡ Self.limit };

    /// Whether calls that make or fill a value of this type request memory.
    fn asks_memory() -> bool
        ensures { result ≡ Self.asks };
}

/// A sequence of octets that grows at its end.
pub trait OctetsBuilder: AsOctets {
    /// The greatest length of a content in octets, or `None` if every length is possible. If the type has
    /// [`OctetsLimit`], it is that limit. Only a builder over a borrowed slice learns it at run time.
    fn max_len(&self) -> Option<usize>
        ensures { result ≡ Self.limit };

    /// Appends all of the slice, or nothing.
    ///
    /// # Errors
    ///
    /// `Short` if the content would exceed the type's limit, otherwise `Memory` if a request for memory was refused.
    /// The content is then unchanged.
    ///
    /// # Examples
    ///
    /// ```
    /// // crates/octseq_callers/src/any_builder.rt
    /// let mut builder = B::empty(alloc)?;
    /// builder.append_slice(first)?;
    /// builder.append_slice(second)?;
    /// Ok(builder)
    /// ```
    fn append_slice(&mut self, slice: &[u8]) -> Result<(), AppendError>
        ensures appended { Appends Self.limit Self.asks result slice.now
            (Self.content self.old) (Self.content self.new) }
        ensures borrows { Self.borrows self.new ≡ Self.borrows self.old };

    /// The same as [`append_slice`](Self::append_slice), for slices that are short in most cases and whose length isn't
    /// known when the program is compiled, as words. A vector appends them faster.
    ///
    /// # Errors
    ///
    /// `Short` if the content would exceed the type's limit, otherwise `Memory` if a request for memory was refused.
    /// The content is then unchanged.
    fn append_few(&mut self, slice: &[u8]) -> Result<(), AppendError>
        ensures appended { Appends Self.limit Self.asks result slice.now
            (Self.content self.old) (Self.content self.new) }
        ensures borrows { Self.borrows self.new ≡ Self.borrows self.old }
    {
        self.append_slice(slice)
    }
}

/// A sequence of octets that can be shortened.
pub trait Truncate: AsOctets {
    /// Keeps the first `len` octets, or all of them if there are fewer.
    ///
    /// # Examples
    ///
    /// ```
    /// // crates/octseq_callers/src/frame.rt
    /// let before = builder.len();
    /// let appended = append_pieces(builder, name, value);
    /// if appended.is_err() {
    ///     builder.truncate(before);
    /// }
    /// appended
    /// ```
    fn truncate(&mut self, len: usize)
        ensures content { Self.content self.new ≡ take len (Self.content self.old) }
        ensures borrows { Self.borrows self.new ≡ Self.borrows self.old };
}

/// A builder that can be created empty.
pub trait EmptyBuilder: OctetsBuilder + OctetsLimit {
    /// An empty builder.
    ///
    /// # Errors
    ///
    /// `AllocError` if a request for memory was refused.
    ///
    /// # Examples
    ///
    /// ```
    /// // crates/octseq_examples/src/builders.rt
    /// pub fn c_string<B: EmptyBuilder>(alloc: Global, name: &str) -> anyhow::Result<B> {
    ///     let mut octets = B::empty(alloc)?;
    ///     octets.append_slice(name.as_bytes())?;
    ///     octets.append_slice(b"\0")?;
    ///     Ok(octets)
    /// }
    /// ```
    fn empty(alloc: Global) -> Result<Self, AllocError>
        ensures ok { IfOk result (λ builder. Self.content builder ≡ []) }
        ensures memory { OnErr result (Self.asks ≡ true) };

    /// An empty builder with room for about `capacity` octets. A type that requests no memory ignores the capacity.
    ///
    /// # Errors
    ///
    /// `AllocError` if a request for memory was refused.
    fn with_capacity(alloc: Global, capacity: usize) -> Result<Self, AllocError>
        ensures ok { IfOk result (λ builder. Self.content builder ≡ []) }
        ensures memory { OnErr result (Self.asks ≡ true) };
}

/// A builder whose octets can be turned into a sequence that no longer grows.
pub trait FreezeBuilder: AsOctets {
    /// The sequence.
    type Octets: OctetsLimit;

    /// The builder's octets as a sequence.
    ///
    /// # Errors
    ///
    /// `AllocError` if a request for memory was refused. The builder is then dropped.
    ///
    /// # Examples
    ///
    /// ```
    /// // crates/octseq_examples/src/builders.rt
    /// pub fn greeting<B: EmptyBuilder + FreezeBuilder>(alloc: Global) -> anyhow::Result<B::Octets> {
    ///     let mut builder = B::empty(alloc)?;
    ///     builder.append_slice(b"hello")?;
    ///     Ok(builder.freeze()?)
    /// }
    /// ```
    fn freeze(self) -> Result<Self::Octets, AllocError>
        ensures ok { IfOk result (λ octets. Self.Octets.content octets ≡ Self.content self) }
        ensures memory { OnErr result (Self.Octets.asks ≡ true) };
}

/// A sequence of octets that can be turned back into a builder.
pub trait IntoBuilder: AsOctets {
    /// The builder.
    type Builder: OctetsBuilder;

    /// The sequence's octets in a builder.
    ///
    /// # Errors
    ///
    /// `AllocError` if a request for memory was refused. The sequence is then dropped.
    fn into_builder(self, alloc: Global) -> Result<Self::Builder, AllocError>
        ensures ok { IfOk result (λ builder. Self.Builder.content builder ≡ Self.content self) }
        ensures memory { OnErr result (Self.Builder.asks ≡ true) };
}

/// A sequence of octets that is made from a builder.
pub trait FromBuilder: OctetsLimit {
    /// The builder.
    type Builder: OctetsBuilder + FreezeBuilder<Octets = Self>;

    /// The builder's octets as a sequence.
    ///
    /// # Errors
    ///
    /// `AllocError` if a request for memory was refused. The builder is then dropped.
    fn from_builder(builder: Self::Builder) -> Result<Self, AllocError>
        ensures ok { IfOk result (λ octets. Self.content octets ≡ Self.Builder.content builder) }
        ensures memory { OnErr result (Self.asks ≡ true) };
}

/// A sequence of octets that can be copied.
pub trait CloneOctets: OctetsLimit {
    /// A sequence with the same content.
    ///
    /// # Errors
    ///
    /// `AllocError` if a request for memory was refused.
    fn clone_octets(&self, alloc: Global) -> Result<Self, AllocError>
        ensures ok { IfOk result (λ octets. Self.content octets ≡ Self.content self.now) }
        ensures memory { OnErr result (Self.asks ≡ true) };
}

/// An append would have made the content longer than the type's limit.
#[derive(Clone, Copy, Debug, PartialEq, Eq)]
pub struct ShortBuf;

impl Error for ShortBuf {}

impl fmt::Display for ShortBuf {
    ghost output = { λ _. Some (codes "buffer size exceeded") };

    fn fmt<W: fmt::Write>(&self, f: &mut fmt::Formatter<W>) -> fmt::Result {
        f.write_str("buffer size exceeded")
    }
}

/// Why an append or a conversion was refused.
#[derive(Clone, Copy, Debug, PartialEq, Eq)]
pub enum AppendError {
    /// The content would have exceeded the limit of its type.
    Short(ShortBuf),
    /// A request for memory was refused.
    Memory,
}

impl Error for AppendError {}

impl fmt::Display for AppendError {
    ghost use Rattle.octseq_core.specs.Shown.{append_error_text};

    ghost output = { λ e. Some (append_error_text e) };

    fn fmt<W: fmt::Write>(&self, f: &mut fmt::Formatter<W>) -> fmt::Result {
        match self {
            AppendError::Short(_) => f.write_str("buffer size exceeded"),
            AppendError::Memory => f.write_str("out of memory"),
        }
    }
}

/// The error of an append.
pub type BuilderAppendError = AppendError;

/// The value of a result that is known to be `Ok`.
pub fn infallible<T, E>(src: Result<T, E>) -> T
    requires { IsOk src }
    ensures { src ≡ Ok result }
{
    src.unwrap()
}

/// The value of a call that is known to return `Ok`.
pub fn with_infallible<F: FnOnce() -> Result<T, E>, T, E>(op: F) -> T
    requires callable { F.pre op }
    requires succeeds { (answer : Result T E) → F.post op answer → IsOk answer }
    ensures { F.post op (Ok result) }
{
    infallible(op())
}

impl From<ShortBuf> for AppendError {
    ghost use Rattle.octseq_core.specs.declared.builder.AppendError.TheVariants.{Short};

    ghost from_gives = { λ e made. made ≡ Short e };

    fn from(e: ShortBuf) -> AppendError {
        AppendError::Short(e)
    }
}

impl From<AllocError> for AppendError {
    ghost use Rattle.octseq_core.specs.declared.builder.AppendError.TheVariants.{Memory};

    ghost from_gives = { λ _ made. made ≡ Memory };

    fn from(_e: AllocError) -> AppendError {
        AppendError::Memory
    }
}
