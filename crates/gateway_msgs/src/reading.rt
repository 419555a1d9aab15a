//! The request that bytes spell.
ghost use Rattle.std.specs.Prelude.{◌≡◌, ◌<◌, ◌≤◌, ◌^◌, ◌%◌, ℕ, true, length, IfOk, IsTrue};
ghost use Rattle.std.specs.List.{flat_map, AllByRecursion};
ghost use Rattle.byteorder.specs.Endian.{big_bytes};
ghost use Rattle.linx_base.specs.NameText.{is_name};
ghost use Rattle.gateway_msgs.specs.Fronts.{IsRequest};
ghost use Rattle.gateway_msgs.specs.Positions.{fits_size};
ghost use Rattle.gateway_msgs.specs.Requests.{IsBodyOf, IsSignal, Spells, signal_bytes};

use crate::fields::{eight_in, eight_of, four_in, four_of};
use crate::request::{
    ATTACH, CANCEL, CLOSE, DETACH, HUNT, MODIFY, OPEN, RECEIVE, Request, SEND, TIMER,
};
use linx_base::{AttRef, Inc, Name, NoMemory, Signal};
use sigsel::Numbers;
use std::alloc::Global;

/// Where a request has its type, its client and its body.
const TYPE_AT: usize = 4;

const CLIENT_AT: usize = 5;

const BODY_AT: usize = 8;

/// A request, and whose it is.
#[derive(Drop)]
pub struct Asked {
    pub client: u8,
    pub request: Request,
}

/// The name that these bytes are.
fn name_in(alloc: Global, bytes: &[u8]) -> Result<Name, NoMemory>
    ensures { IfOk result (λ name. (name ≡ bytes.now) × IsTrue (is_name bytes.now)) }
{
    match Name::of(alloc, bytes) {
        Ok(name) => Ok(name),
        Err(_refusal) => Err(NoMemory),
    }
}

/// The signal whose number and data these bytes are.
fn signal_in(alloc: Global, bytes: &[u8]) -> Result<Signal, NoMemory>
    requires { 4 ≤ length bytes.now }
    ensures { IfOk result (λ signal. (bytes.now ≡ signal_bytes signal) × IsSignal signal) }
{
    let (number, data) = four_in(bytes);
    match Signal::alloc(alloc, number, data) {
        Ok(signal) => Ok(signal),
        Err(_refusal) => Err(NoMemory),
    }
}

/// The numbers of four bytes each that these bytes are.
fn numbers_in(alloc: Global, bytes: &[u8]) -> Result<Numbers, NoMemory>
    requires { length bytes.now % 4 ≡ 0 }
    ensures spelled { IfOk result (λ numbers. bytes.now ≡ flat_map (big_bytes 4) numbers) }
    ensures fit { IfOk result (λ numbers. AllByRecursion (λ n. n < 2 ^ 32) numbers) }
{
    let mut numbers = Vec::with_capacity(alloc, bytes.len() / 4)?;
    let mut rest = bytes;
    while !rest.is_empty() {
        let (number, behind) = four_in(rest);
        numbers.push(number)?;
        rest = behind;
    }
    Numbers::of(numbers)
}

fn send_in(alloc: Global, body: &[u8]) -> Result<Request, NoMemory>
    requires { 12 ≤ length body.now }
    ensures { IfOk result (λ request. IsBodyOf 3 body.now request) }
{
    let (to, signal) = eight_in(body);
    let signal = signal_in(alloc, signal)?;
    Ok(Request::Send {
        to: Inc(to),
        signal,
    })
}

fn receive_in(alloc: Global, body: &[u8]) -> Result<Request, NoMemory>
    requires some { 4 ≤ length body.now }
    requires few { length body.now ≤ 260 }
    requires whole { length body.now % 4 ≡ 0 }
    ensures { IfOk result (λ request. IsBodyOf 4 body.now request) }
{
    let (count, numbers) = four_in(body);
    let numbers = numbers_in(alloc, numbers)?;
    Ok(Request::Receive { count, numbers })
}

fn timer_in(alloc: Global, body: &[u8]) -> Result<Request, NoMemory>
    requires { 8 ≤ length body.now }
    ensures { IfOk result (λ request. IsBodyOf 8 body.now request) }
{
    let (delay, signal) = four_in(body);
    let signal = signal_in(alloc, signal)?;
    Ok(Request::Timer { delay, signal })
}

fn modify_in(body: &[u8]) -> Request
    requires { length body.now ≡ 12 }
    ensures { IsBodyOf 10 body.now result }
{
    let (reference, delay) = eight_in(body);
    Request::Modify {
        reference,
        delay: four_of(delay),
    }
}

/// The request of this type with this body.
fn request_in(alloc: Global, kind: u8, body: &[u8]) -> Result<Request, NoMemory>
    requires { fits_size kind (length body.now) ≡ true }
    ensures { IfOk result (λ request. IsBodyOf kind body.now request) }
{
    match kind {
        OPEN => Ok(Request::Open(name_in(alloc, body)?)),
        CLOSE => Ok(Request::Close),
        SEND => send_in(alloc, body),
        RECEIVE => receive_in(alloc, body),
        HUNT => Ok(Request::Hunt(name_in(alloc, body)?)),
        ATTACH => Ok(Request::Attach(Inc(eight_of(body)))),
        DETACH => Ok(Request::Detach(AttRef(eight_of(body)))),
        TIMER => timer_in(alloc, body),
        CANCEL => Ok(Request::Cancel {
            reference: eight_of(body),
        }),
        MODIFY => Ok(modify_in(body)),
        _ => Ok(Request::Clock {
            moment: eight_of(body),
        }),
    }
}

/// The request whose bytes these are, and whose it is.
pub fn read(alloc: Global, bytes: &[u8]) -> Result<Asked, NoMemory>
    requires { (clients : ℕ) × IsRequest clients bytes.now }
    ensures { IfOk result (λ asked. (clients : ℕ) → IsRequest clients bytes.now
        → Spells clients asked.client asked.request bytes.now) }
{
    let request = request_in(alloc, bytes[TYPE_AT], &bytes[BODY_AT..])?;
    Ok(Asked {
        client: bytes[CLIENT_AT],
        request,
    })
}
