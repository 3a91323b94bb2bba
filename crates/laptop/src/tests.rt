// Each request is made, and has the text that a laptop sends.
use super::{Named, cancel, close, create, fragment, ping};
use std::test::Fail;

const FIRST: Named<'static> = Named {
    path: "/a",
    id: "{00000000-0000-0001-0000-000000000001}",
};

#[test]
fn without_a_session(rt: HostRuntime) -> Result<(), Fail> {
    let heap = rt.alloc();
    assert_eq!(rt;
        ping(heap, "/", "Note: v\r\n")?.as_str(),
        "BITS_POST / HTTP/1.1\r\nBITS-Packet-Type: PING\r\nContent-Length: 0\r\nNote: v\r\n\r\n"
    );
    assert_eq!(rt;
        create(heap, "/a")?.as_str(),
        "BITS_POST /a HTTP/1.1\r\nBITS-Packet-Type: CREATE-SESSION\r\nBITS-Supported-Protocols: {7df0354d-249b-430f-820d-3d2a9bef4931}\r\nContent-Length: 0\r\n\r\n"
    );
    Ok(())
}

#[test]
fn of_a_session(rt: HostRuntime) -> Result<(), Fail> {
    let heap = rt.alloc();
    assert_eq!(rt;
        close(heap, FIRST)?.as_str(),
        "BITS_POST /a HTTP/1.1\r\nBITS-Packet-Type: CLOSE-SESSION\r\nBITS-Session-Id: {00000000-0000-0001-0000-000000000001}\r\nContent-Length: 0\r\n\r\n"
    );
    assert_eq!(rt;
        cancel(heap, FIRST)?.as_str(),
        "BITS_POST /a HTTP/1.1\r\nBITS-Packet-Type: CANCEL-SESSION\r\nBITS-Session-Id: {00000000-0000-0001-0000-000000000001}\r\nContent-Length: 0\r\n\r\n"
    );
    assert_eq!(rt;
        fragment(heap, FIRST, "0-3/9", "4", "abcd")?.as_str(),
        "BITS_POST /a HTTP/1.1\r\nBITS-Packet-Type: FRAGMENT\r\nBITS-Session-Id: {00000000-0000-0001-0000-000000000001}\r\nContent-Range: bytes 0-3/9\r\nContent-Length: 4\r\n\r\nabcd"
    );
    Ok(())
}
