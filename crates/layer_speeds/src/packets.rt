//! Lines of hexadecimal digits, each behind a letter that says what they are read as: `p` a packet,
//! `m` a message of RLNH, `s` a body of a signal; or, behind `t`, the most bytes a read, a stream, and
//! the answer of an echo to it and its end. It prints a letter for each, `G` where they are that, or
//! `B` where they are bad.

use crate::streams::is_answered;
use anyhow::{Context, bail};
use ethcm_headers::{PacketBytes, ReadError};
use linx_base::Blob;
use rlnh_messages::RlnhError;
use std::alloc::Global;
use std::io::{BufRead, BufReader, Input, Print};

fn bytes_of(alloc: Global, digits: &str) -> anyhow::Result<Blob> {
    Blob::shared(hex::decode(alloc, digits.as_bytes())?).context("bytes")
}

fn is_packet(bytes: Blob) -> anyhow::Result<bool> {
    match ethcm_headers::read(&PacketBytes::of(bytes).context("bytes")?) {
        Ok(_) => Ok(true),
        Err(ReadError::Bad) => Ok(false),
        Err(ReadError::NoMemory) => bail!("memory"),
    }
}

fn is_message(alloc: Global, bytes: &Blob) -> anyhow::Result<bool> {
    match rlnh_messages::read(alloc, bytes.bytes()) {
        Ok(_) => Ok(true),
        Err(RlnhError::Bad) => Ok(false),
        Err(RlnhError::NoMemory) => bail!("memory"),
    }
}

fn is_signal(bytes: &Blob) -> anyhow::Result<bool> {
    match rlnh_messages::read_signal(bytes) {
        Ok(_) => Ok(true),
        Err(RlnhError::Bad) => Ok(false),
        Err(RlnhError::NoMemory) => bail!("memory"),
    }
}

/// Whether the bytes of a line are what its first letter says.
fn is_good(alloc: Global, line: &str) -> anyhow::Result<bool> {
    if let Some(digits) = line.strip_prefix("p") {
        return is_packet(bytes_of(alloc, digits)?);
    }
    if let Some(digits) = line.strip_prefix("m") {
        return is_message(alloc, &bytes_of(alloc, digits)?);
    }
    if let Some(stream) = line.strip_prefix("t") {
        return is_answered(alloc, stream);
    }
    is_signal(&bytes_of(alloc, line.strip_prefix("s").context("line")?)?)
}

/// The lines of the standard input are read.
pub fn work<R: Input + Print>(rt: &R, alloc: Global) -> anyhow::Result<()> {
    let mut answers = String::new(alloc);
    for line in BufReader::new(alloc, rt.reader())?.lines(alloc) {
        let letter = if is_good(alloc, line?.as_str())? {
            "G"
        } else {
            "B"
        };
        answers.push_str(letter)?;
    }
    println!(rt; "{answers}")?;
    Ok(())
}
