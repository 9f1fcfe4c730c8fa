//! The whole input, up to its limit.
ghost use Rattle.std.specs.Prelude.{◌≡◌, ◌≢◌, ◌<◌, ◌≤◌, ◌++◌, length, IfOk, IfErr, OnOk};
ghost use Rattle.line_mode.specs.declared.outcomes.LineFault.TheVariants.{Device, InputTooLong};
ghost use Rattle.line_mode.specs.LineMode.{IsWholeInput, StopsReading, input_limit};

use crate::outcomes::LineFault;
use std::alloc::Global;
use std::io::{ErrorKind, Read};

/// The greatest length of an input.
const INPUT_LIMIT: usize = 8_388_608;

/// How often a reader is asked at most.
const READ_TURNS: u32 = 16_777_216;

/// How many bytes are asked of a reader at once.
const BLOCK: usize = 65_536;

/// All that the reader gives; an interrupted read is made again.
pub(crate) fn read_input<R: Read>(alloc: Global, input: &mut R) -> Result<Vec<u8>, LineFault>
    ensures whole { IfOk result (λ bytes. IsWholeInput (R.remaining input.old) (R.remaining input.new) bytes.items) }
    ensures fault { IfErr result (StopsReading (R.remaining input.old) (R.remaining input.new)) }
{
    let mut bytes = Vec::new(alloc);
    let mut block = [0u8; BLOCK];
    for _turn in 0..READ_TURNS {
        match input.read(&mut block) {
            Ok(0) => return Ok(bytes),
            Ok(n) => add_block(&mut bytes, &block[..n])?,
            Err(e) => {
                if e.kind() != ErrorKind::Interrupted {
                    return Err(LineFault::Device);
                }
            }
        }
    }
    Err(LineFault::Device)
}

/// Adds what a read gave, where the input stays within its limit.
fn add_block(bytes: &mut Vec<u8>, block: &[u8]) -> Result<(), LineFault>
    requires { length bytes.old.items ≤ input_limit }
    ensures added { OnOk result (bytes.new.items ≡ bytes.old.items ++ block.now) }
    ensures within { OnOk result (length bytes.new.items ≤ input_limit) }
    ensures fault { IfErr result (λ f. f ≡ InputTooLong → input_limit < length (bytes.old.items ++ block.now)) }
    ensures kind { IfErr result (λ f. f ≢ Device) }
{
    if block.len() > INPUT_LIMIT - bytes.len() {
        return Err(LineFault::InputTooLong);
    }
    bytes.extend_from_slice(block)?;
    Ok(())
}
