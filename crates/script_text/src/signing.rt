//! Signs the requests of a client, line by line.
ghost use Rattle.std.specs.Prelude.{◌≡◌, ◌++◌, Ok, IfOk, IfErr, OnOk};
ghost use Rattle.script_text.specs.Script.{IsFaultOf};
ghost use Rattle.script_text.specs.Signing.{longest_signed_line, numbered_by, numbered_line, signed_line, signed_text};

use crate::asked::{AskedWords, read_asked, read_request};
use crate::fault::ScriptFault;
use crate::splitting::{split_line, split_word};
use crate::words;
use crate::writing::{write_decimal, write_digits, write_request};
use base_words::Memory;
use client_requests::request_tag;
use record_hash::Digests;
use record_text::{Cause, LONGEST_BLOB, Request};
use std::alloc::Global;

// The most bytes of a line that is to be signed, without its end.
const LONGEST_SIGNED_LINE: usize = 768;

/// A request, and the number that its client gives it.
#[derive(Debug, PartialEq, Eq, Drop)]
pub struct Numbered {
    pub number: u64,
    pub request: Request,
}

/// The lines that bytes are once this client signed them, in a tree whose keys have 128 bits or 64, or the first line that is refused.
pub fn sign_lines<D: Digests>(
    alloc: Global,
    d: &D,
    wide: bool,
    client: u32,
    bytes: &[u8],
) -> Result<Vec<u8>, ScriptFault>
    ensures signed { IfOk result (λ text. signed_text (D.functions d.now) wide client bytes.now ≡ Ok text.items) }
    ensures refused { IfErr result (λ fault. IsFaultOf (signed_text (D.functions d.now) wide client bytes.now) fault) }
{
    let mut text = Vec::new(alloc);
    let mut rest = bytes;
    let mut number = 0;
    let mut last = 0;
    while !rest.is_empty() {
        let (line, behind) = split_line(rest);
        number += 1;
        let one = match read_numbered(line, wide, last) {
            Ok(one) => one,
            Err(cause) => {
                return Err(ScriptFault::BadScript {
                    line: number,
                    cause,
                });
            }
        };
        write_signed(d, wide, client, &one, &mut text)?;
        last = one.number;
        rest = behind;
    }
    Ok(text)
}

// What a line asks behind a request of this number, or the first cause for which it is refused.
#[tactic(auto, unfolding(crate::specs::Signing::numbered_line, crate::specs::Signing::numbered_words))]
fn read_numbered(line: &[u8], wide: bool, last: u64) -> Result<Numbered, Cause>
    ensures value { result ≡ numbered_line wide last line.now }
{
    if line.len() > LONGEST_SIGNED_LINE {
        return Err(Cause::Shape);
    }
    let (number, behind) = split_word(line);
    let Some(behind) = behind else {
        return Err(Cause::Shape);
    };
    match read_asked(behind, LONGEST_BLOB as u8) {
        Some(asked) => read_behind(wide, last, number, &asked),
        None => Err(Cause::Shape),
    }
}

// A request with its number, by its words.
fn read_behind(wide: bool, last: u64, number: &[u8], asked: &AskedWords) -> Result<Numbered, Cause>
    ensures value { result ≡ numbered_by wide last number.now asked.now }
{
    let Some(number) = words::number_behind(last, number) else {
        return Err(Cause::Number);
    };
    let request = match read_request(asked, wide) {
        Ok(request) => request,
        Err(cause) => return Err(cause),
    };
    Ok(Numbered { number, request })
}

// Adds the line of a request that is signed.
fn write_signed<D: Digests>(
    d: &D,
    wide: bool,
    client: u32,
    one: &Numbered,
    text: &mut Vec<u8>,
) -> Result<(), Memory>
    ensures appended { OnOk result (text.new.items ≡ text.old.items ++ signed_line (D.functions d.now) wide client one.now) }
{
    let tag = request_tag(d, wide, client, one.number, &one.request);
    write_decimal(u128::from(client), text)?;
    text.push(b' ')?;
    write_decimal(u128::from(one.number), text)?;
    text.push(b' ')?;
    write_digits(&tag, text)?;
    write_request(
        one.request.put,
        one.request.key,
        &one.request.value.by_ref(),
        text,
    )?;
    text.push(b'\n')?;
    Ok(())
}
