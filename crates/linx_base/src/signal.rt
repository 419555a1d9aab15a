ghost use Rattle.std.specs.Prelude.{◌≡◌, [], ◌∷◌, ◌++◌, ◌+◌, ◌-◌, ◌<◌, ◌≤◌, length, IfOk, IfErr};
ghost use Rattle.std.specs.Prelude.{OnOk, OnErr};
ghost use Rattle.linx_base.specs.Content.{data_limit, resized};
ghost use Rattle.linx_base.specs.declared.signal.BufferError.TheVariants.{NoMemory as OutOfMemory};

use crate::blob::Blob;
use crate::memory::NoMemory;
use crate::try_copy::TryCopy;
use std::alloc::Global;
use std::error::Error;
use std::fmt;
use std::marker::Model;

/// The most data bytes of a signal.
const DATA_MOST: usize = 65_532;

/// Why a buffer was refused.
#[derive(Clone, Copy, Debug, PartialEq, Eq, Hash)]
pub enum BufferError {
    TooLarge,
    NoMemory,
}

impl fmt::Display for BufferError {
    ghost use Rattle.std.specs.Prelude.{Some};
    ghost use Rattle.linx_base.specs.Failures.{buffer_error_text};

    ghost output = { λ error. Some (buffer_error_text error) };

    fn fmt<W: fmt::Write>(&self, f: &mut fmt::Formatter<W>) -> fmt::Result {
        f.write_str(match self {
            BufferError::TooLarge => "too large for a signal",
            BufferError::NoMemory => "out of memory",
        })
    }
}

impl Error for BufferError {}

impl From<NoMemory> for BufferError {
    ghost from_gives = { λ _ e. e ≡ OutOfMemory };

    fn from(_refusal: NoMemory) -> BufferError {
        BufferError::NoMemory
    }
}

/// Why a holder of an attach is notified. Each has the value of the byte that a notification's
/// signal carries at its end.
#[derive(Clone, Copy, Debug, PartialEq, Eq, Hash)]
pub enum Reason {
    /// The peer was closed.
    Closed,
    /// The link's session with the peer is down.
    Lost,
    /// The peer wasn't alive when it was attached to.
    Dead,
}

impl Reason {
    ghost use Rattle.linx_base.specs.Content.{reason_byte};

    /// 0 for `Closed`, 1 for `Lost`, 2 for `Dead`.
    pub fn byte(self) -> u8
        ensures { result ≡ reason_byte self }
    {
        match self {
            Reason::Closed => 0,
            Reason::Lost => 1,
            Reason::Dead => 2,
        }
    }
}

/// The first n bytes, and zeros where there are fewer.
fn resized(alloc: Global, bytes: &[u8], n: usize) -> Result<Blob, NoMemory>
    ensures { IfOk result (λ made. made ≡ resized bytes.now n) }
{
    if n <= bytes.len() {
        return Blob::of(alloc, &bytes[..n]);
    }
    let mut filled = Vec::with_capacity(alloc, n)?;
    filled.extend_from_slice(bytes)?;
    filled.resize(n, 0)?;
    Blob::shared(filled)
}

/// The bytes, and one more behind them.
fn followed(alloc: Global, bytes: &[u8], last: u8) -> Result<Blob, NoMemory>
    requires { length bytes.now ≤ data_limit }
    ensures { IfOk result (λ made. made ≡ bytes.now ++ last ∷ []) }
{
    let mut longer = Vec::with_capacity(alloc, bytes.len() + 1)?;
    longer.extend_from_slice(bytes)?;
    longer.push(last)?;
    Blob::shared(longer)
}

/// A signal: a number and 0 to 65,532 data bytes. It has one owner and no clone; sending moves it
/// away. Its bytes are shared with its notes. Contracts see its content.
#[derive(Drop)]
pub struct Signal {
    number: u32,
    bytes: Blob,
}

impl Model for Signal {
    ghost use Rattle.std.specs.Prelude.{◌≤◌, length};
    ghost use Rattle.linx_base.specs.Content.{data_limit};
    ghost use Rattle.linx_base.specs.SigNotes.{SigNote};

    ghost Value = { SigNote };

    ghost view = { λ s. record { number = s.number; bytes = s.bytes } };

    ghost invariant = { λ s. length s.bytes ≤ data_limit };
}

impl Signal {
    ghost use Rattle.linx_base.specs.Content.{data_limit, size_of, resized, with_reason};

    /// A signal with this number and these data bytes, copied once. `TooLarge` comes exactly where
    /// they are more than 65,532.
    pub fn alloc(alloc: Global, number: u32, bytes: &[u8]) -> Result<Signal, BufferError>
        ensures ok { IfOk result (λ signal. signal
            ≡ record { number = number; bytes = bytes.now }) }
        ensures too_large { data_limit < length bytes.now → result ≡ Err BufferError.TooLarge }
        ensures too_large_only { IfErr result (λ e. e ≡ BufferError.TooLarge
            → data_limit < length bytes.now) }
    {
        if bytes.len() > DATA_MOST {
            return Err(BufferError::TooLarge);
        }
        Ok(Signal {
            number,
            bytes: Blob::of(alloc, bytes)?,
        })
    }

    /// A signal with this number and these data bytes, which are shared. It takes no memory.
    pub fn of(number: u32, bytes: Blob) -> Signal
        requires { length bytes ≤ data_limit }
        ensures { result ≡ record { number = number; bytes = bytes } }
    {
        Signal { number, bytes }
    }

    /// Keeps the first n data bytes, and adds zeros where there are fewer. `TooLarge` comes exactly
    /// where n is above 65,532. A refusal changes nothing.
    pub fn resize(&mut self, n: usize) -> Result<(), BufferError>
        ensures ok { OnOk result (self.new ≡ record self.old { bytes = resized self.old.bytes n }) }
        ensures too_large { data_limit < n → result ≡ Err BufferError.TooLarge }
        ensures too_large_only { IfErr result (λ e. e ≡ BufferError.TooLarge → data_limit < n) }
        ensures err { OnErr result (self.new ≡ self.old) }
    {
        if n > DATA_MOST {
            return Err(BufferError::TooLarge);
        }
        self.bytes = resized(self.bytes.allocator(), self.bytes.bytes(), n)?;
        Ok(())
    }

    /// A signal of the same number, with the byte of a reason behind the data, which are at most
    /// 65,531 bytes before it.
    pub fn with_reason(&self, reason: Reason) -> Result<Signal, NoMemory>
        requires { length self.now.bytes < data_limit }
        ensures { IfOk result (λ told. told ≡ with_reason reason self.now) }
    {
        let bytes = followed(self.bytes.allocator(), self.bytes.bytes(), reason.byte())?;
        Ok(Signal {
            number: self.number,
            bytes,
        })
    }

    /// The number of the signal, by which filters select it.
    pub fn number(&self) -> u32
        ensures { result ≡ self.now.number }
    {
        self.number
    }

    /// The data bytes, at most 65,532 of them.
    pub fn bytes(&self) -> &[u8]
        ensures bytes { result.now ≡ self.now.bytes }
        ensures bounded { length self.now.bytes ≤ data_limit }
    {
        self.bytes.bytes()
    }

    /// The data bytes, which can be shared.
    pub fn data(&self) -> &Blob
        ensures data { result.now ≡ self.now.bytes }
        ensures bounded { length self.now.bytes ≤ data_limit }
    {
        &self.bytes
    }

    /// 4, and the number of data bytes.
    pub fn size(&self) -> u32
        ensures size { result ≡ size_of self.now }
        ensures bounded { length self.now.bytes ≤ data_limit }
    {
        self.bytes.len() as u32 + 4
    }

    /// A signal of the same content, which shares the bytes.
    fn shared(&self) -> Result<Signal, NoMemory>
        ensures { IfOk result (λ signal. signal ≡ self.now) }
    {
        Ok(Signal {
            number: self.number,
            bytes: self.bytes.copy()?,
        })
    }

    /// The content for a journal, which shares the bytes.
    pub fn note(&self) -> Result<SigNote, NoMemory>
        ensures { IfOk result (λ note. note ≡ self.now) }
    {
        Ok(SigNote {
            signal: self.shared()?,
        })
    }
}

/// The content of a signal, as a journal notes it: a number and 0 to 65,532 data bytes, which are
/// shared with the signal and with copies.
#[derive(Drop)]
pub struct SigNote {
    signal: Signal,
}

impl Model for SigNote {
    ghost use Rattle.linx_base.specs.SigNotes.{SigNote as Content};

    ghost Value = { Content };

    ghost view = { λ n. n.signal };
}

impl SigNote {
    ghost use Rattle.linx_base.specs.Content.{data_limit};

    /// The number.
    pub fn number(&self) -> u32
        ensures { result ≡ self.now.number }
    {
        self.signal.number()
    }

    /// The data bytes, which can be shared.
    pub fn data(&self) -> &Blob
        ensures data { result.now ≡ self.now.bytes }
        ensures bounded { length self.now.bytes ≤ data_limit }
    {
        self.signal.data()
    }

    /// A signal of this content, which shares the bytes.
    pub fn signal(&self) -> Result<Signal, NoMemory>
        ensures { IfOk result (λ signal. signal ≡ self.now) }
    {
        self.signal.shared()
    }
}

impl TryCopy for SigNote {
    fn copy(&self) -> Result<SigNote, NoMemory> {
        self.signal.note()
    }
}
