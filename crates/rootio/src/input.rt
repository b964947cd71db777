//! The input, which is read whole before anything else is looked at.
ghost use Rattle.std.specs.Prelude.{◌≡◌, ◌≤◌, ◌<◌, length, IfOk};
ghost use Rattle.rootio.specs.Input.{ReadsAll, TakesPiece};

use rio_host::{Failed, Source};
use rio_num::{Bytes, NoMemory};
use std::alloc::Global;

/// How many bytes an input may have.
pub const INPUT_LIMIT: usize = 67_108_864;

// How many bytes are asked for at a time.
const PIECE: usize = 65_536;

/// Why an input could not be read whole.
#[derive(Clone, Copy, Debug, PartialEq, Eq)]
pub enum InputError {
    /// A read failed.
    Fault,
    NoMemory,
    /// It has more than 67,108,864 bytes.
    TooLong,
}

impl From<Failed> for InputError {
    ghost use Rattle.std.specs.Prelude.{◌≡◌};
    ghost use Rattle.rootio.specs.declared.input.InputError.TheVariants.{Fault};

    ghost from_gives = { λ _ e. e ≡ Fault };

    fn from(_e: Failed) -> InputError {
        InputError::Fault
    }
}

impl From<NoMemory> for InputError {
    ghost use Rattle.std.specs.Prelude.{◌≡◌};
    ghost use Rattle.rootio.specs.declared.input.InputError.TheVariants.{NoMemory as OutOfMemory};

    ghost from_gives = { λ _ e. e ≡ OutOfMemory };

    fn from(_e: NoMemory) -> InputError {
        InputError::NoMemory
    }
}

// So many zero bytes.
fn zeros(alloc: Global, n: usize) -> Result<Vec<u8>, NoMemory>
    ensures { IfOk result (λ bytes. length bytes.items ≡ n) }
{
    Ok(vec![in alloc; 0u8; n]?)
}

// Puts the next piece of the input behind what was taken of it: false where nothing remained.
fn take_piece<S: Source>(
    input: &mut S,
    piece: &mut [u8],
    taken: &mut Bytes,
) -> Result<bool, InputError>
    requires room { 0 < length piece.old }
    requires within { length taken.old.bytes ≤ INPUT_LIMIT }
    ensures { TakesPiece (S.view input.old) (S.view input.new) taken.old.bytes taken.new.bytes
        result }
{
    let n = input.read(piece)?;
    if n == 0 {
        return Ok(false);
    }
    if INPUT_LIMIT - taken.len() < n {
        return Err(InputError::TooLong);
    }
    taken.put(&piece[..n])?;
    Ok(true)
}

/// All bytes of the input, in pieces, so that no more memory is taken than what was read has need of.
pub fn read_input<S: Source>(alloc: Global, input: &mut S) -> Result<Bytes, InputError>
    ensures { ReadsAll (S.view input.old) (S.view input.new) result }
{
    let mut piece = zeros(alloc, PIECE)?;
    let mut taken = Bytes::new(alloc);
    'pieces: while take_piece(input, &mut piece, &mut taken)? {}
    Ok(taken)
}
