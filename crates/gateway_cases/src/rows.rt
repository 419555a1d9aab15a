//! Worked rows: requests that are read, and replies that are written.
ghost use Rattle.std.specs.Prelude.{◌<◌};

use gateway_msgs::{
    Asked, Front, REPLY_MOST, Reply, Request, filter_of, front_of, read, write_reply,
};
use linx_base::{Inc, Signal};
use sigsel::{Numbers, Sigsel};
use std::alloc::Global;
use std::test::Fail;

/// The bytes of a reply to client 1.
fn reply_bytes(alloc: Global, kind: u8, reply: &Reply) -> Result<Vec<u8>, Fail>
    requires { kind < 128 }
{
    let mut out = Vec::with_capacity(alloc, REPLY_MOST)?;
    write_reply(&mut out, kind, 1, reply);
    Ok(out)
}

/// The request that the bytes begin with, of one client.
fn asked(alloc: Global, bytes: &[u8]) -> Result<Asked, Fail> {
    match front_of(1, 1 << 30, bytes) {
        Front::Whole(size) => Ok(read(alloc, &bytes[..size])?),
        Front::More | Front::Bad => Err(Fail::from("no request")),
    }
}

#[test]
fn requests_are_read(rt: HostRuntime) -> Result<(), Fail> {
    let open = asked(rt.alloc(), &[0, 0, 0, 5, 1, 1, 0, 0, 97, 255])?;
    assert_eq!(rt; open.client, 1);
    assert!(rt; matches!(&open.request, Request::Open(name) if name.bytes() == b"a".as_slice()));
    let clock = asked(
        rt.alloc(),
        &[0, 0, 0, 12, 11, 0, 0, 0, 0, 0, 0, 0, 0, 0, 0, 5],
    )?;
    assert_eq!(rt; clock.client, 0);
    assert!(rt; matches!(&clock.request, Request::Clock { moment: 5 }));
    Ok(())
}

#[test]
fn replies_are_written(rt: HostRuntime) -> Result<(), Fail> {
    let alloc = rt.alloc();
    assert_eq!(rt;
        reply_bytes(alloc, 1, &Reply::Number(4_294_967_297))?.as_slice(),
        [0, 0, 0, 12, 129, 1, 0, 0, 0, 0, 0, 1, 0, 0, 0, 1].as_slice()
    );
    assert_eq!(rt;
        reply_bytes(alloc, 11, &Reply::BadMoment)?.as_slice(),
        [0, 0, 0, 4, 139, 1, 0, 8].as_slice()
    );
    let took = Reply::Took {
        from: Inc(4_294_967_297),
        signal: Signal::alloc(alloc, 300, &[])?,
    };
    assert_eq!(rt;
        reply_bytes(alloc, 4, &took)?.as_slice(),
        [
            0, 0, 0, 16, 132, 1, 0, 0, 0, 0, 1, 44, 0, 0, 0, 1, 0, 0, 0, 1
        ]
        .as_slice()
    );
    Ok(())
}

#[test]
fn a_negated_count_selects_all_but_its_numbers(rt: HostRuntime) -> Result<(), Fail> {
    let mut listed = Vec::new(rt.alloc());
    listed.push(7)?;
    let filter = filter_of(u32::MAX, Numbers::of(listed)?);
    assert!(rt; matches!(&filter, Some(Sigsel::Not(_))));
    Ok(())
}
