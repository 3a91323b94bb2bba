// Inputs with the number and the place that they must give; number 0 is a packet.
ghost use Rattle.std.specs.Prelude.{◌≡◌};

#[derive(Clone, Copy, Drop)]
pub struct Case<I> {
    pub name: &'static str,
    pub input: I,
    pub number: u8,
    pub place: usize,
}

impl<I> Case<I> {
    pub fn new(name: &'static str, input: I, number: u8, place: usize) -> Self
        ensures name { result.name.now ≡ name.now }
        ensures input { result.input ≡ input }
        ensures number { result.number ≡ number }
        ensures place { result.place ≡ place }
    {
        Case {
            name,
            input,
            number,
            place,
        }
    }
}

pub static GOOD: [Case<&[u8]>; 15] = [
    Case {
        name: "create, first example",
        input: b"BITS_POST /upload/2000mb-rfc2119.txt HTTP/1.1\r\nAccept: */*\r\nBITS-Packet-Type: Create-Session\r\nBITS-Supported-Protocols: {7df0354d-249b-430f-820d-3d2a9bef4931}\r\nContent-Name: rfc2119.txt\r\nUser-Agent: Microsoft BITS/6.7\r\nHost: frankcao8\r\nContent-Length: 0\r\nConnection: Keep-Alive\r\n\r\n",
        number: 0,
        place: 0,
    },
    Case {
        name: "fragment, first example",
        input: b"BITS_POST /upload/2000mb-rfc2119.txt HTTP/1.1\r\nAccept: */*\r\nBITS-Packet-Type: Fragment\r\nBITS-Session-Id: {A0FF5911-4144-45B3-BF27-27AFC8EC8A67}\r\nContent-Name: rfc2119.txt\r\nContent-Range: bytes 0-4891/4892\r\nUser-Agent: Microsoft BITS/6.7\r\nHost: frankcao8\r\nContent-Length: 4892\r\nConnection: Keep-Alive\r\n\r\n",
        number: 0,
        place: 0,
    },
    Case {
        name: "ping, first example",
        input: b"BITS_POST /upload/2000mb-rfc2119.txt HTTP/1.1\r\nAccept: */*\r\nBITS-Packet-Type: Ping\r\nUser-Agent: Microsoft BITS/6.7\r\nHost: frankcao8\r\nContent-Length: 0\r\nConnection: Keep-Alive\r\n\r\n",
        number: 0,
        place: 0,
    },
    Case {
        name: "close, first example",
        input: b"BITS_POST /upload/2000mb-rfc2119.txt HTTP/1.1\r\nAccept: */*\r\nBITS-Packet-Type: Close-Session\r\nBITS-Session-Id: {A0FF5911-4144-45B3-BF27-27AFC8EC8A67}\r\nContent-Name: rfc2119.txt\r\nUser-Agent: Microsoft BITS/6.7\r\nHost: frankcao8\r\nContent-Length: 0\r\nConnection: Keep-Alive\r\n\r\n",
        number: 0,
        place: 0,
    },
    Case {
        name: "create, second example",
        input: b"BITS_POST /upload-ref-isapi-WebFarm/2100mb-rfc2119.txt HTTP/1.1\r\nAccept: */*\r\nBITS-Packet-Type: Create-Session\r\nBITS-Supported-Protocols: {7df0354d-249b-430f-820d-3d2a9bef4931}\r\nContent-Name: rfc2119.txt\r\nUser-Agent: Microsoft BITS/6.7\r\nHost: frankcao8\r\nContent-Length: 0\r\nConnection: Keep-Alive\r\n\r\n",
        number: 0,
        place: 0,
    },
    Case {
        name: "ping, second example",
        input: b"BITS_POST /upload-ref-isapi-WebFarm/2100mb-rfc2119.txt HTTP/1.1\r\nAccept: */*\r\nBITS-Packet-Type: Ping\r\nUser-Agent: Microsoft BITS/6.7\r\nHost: FRANKCAO8\r\nContent-Length: 0\r\nConnection: Keep-Alive\r\n\r\n",
        number: 0,
        place: 0,
    },
    Case {
        name: "fragment, second example",
        input: b"BITS_POST /upload-ref-isapi-WebFarm/2100mb-rfc2119.txt HTTP/1.1\r\nAccept: */*\r\nBITS-Packet-Type: Fragment\r\nBITS-Session-Id: {C85B4E0A-9EB9-4114-BFA4-8A43B4710091}\r\nContent-Name: rfc2119.txt\r\nContent-Range: bytes 0-4891/4892\r\nUser-Agent: Microsoft BITS/6.7\r\nHost: FRANKCAO8\r\nContent-Length: 4892\r\nConnection: Keep-Alive\r\n\r\n",
        number: 0,
        place: 0,
    },
    Case {
        name: "close, second example",
        input: b"BITS_POST /upload-ref-isapi-WebFarm/2100mb-rfc2119.txt HTTP/1.1\r\nAccept: */*\r\nBITS-Packet-Type: Close-Session\r\nBITS-Session-Id: {C85B4E0A-9EB9-4114-BFA4-8A43B4710091}\r\nContent-Name: rfc2119.txt\r\nUser-Agent: Microsoft BITS/6.7\r\nHost: FRANKCAO8\r\nContent-Length: 0\r\nConnection: Keep-Alive\r\n\r\n",
        number: 0,
        place: 0,
    },
    Case {
        name: "cancel",
        input: b"BITS_POST /a HTTP/1.1\r\nContent-Length: 0\r\nBITS-Packet-Type: CANCEL-SESSION\r\nBITS-Session-Id: {00000000-0000-0001-0000-00000000000a}\r\n\r\n",
        number: 0,
        place: 0,
    },
    Case {
        name: "names and values in other letter case",
        input: b"BITS_POST /a HTTP/1.1\r\ncONTENT-lENGTH: 4\r\nbits-PACKET-type: fragMENT\r\nbits-session-ID: {0000000A-0000-0001-0000-00000000000A}\r\nCONTENT-range: BYTES\t 0-3/9\r\nContent-encoding: IDENTITY\r\n\r\nabcd",
        number: 0,
        place: 0,
    },
    Case {
        name: "unknown field twice",
        input: b"BITS_POST /a HTTP/1.1\r\nContent-Length: 0\r\nBITS-Packet-Type: PING\r\nHost: a\r\nHost: a\r\n\r\n",
        number: 0,
        place: 0,
    },
    Case {
        name: "known field not needed and bad",
        input: b"BITS_POST /a HTTP/1.1\r\nContent-Length: 0\r\nBITS-Packet-Type: PING\r\nContent-Range: nonsense\r\n\r\n",
        number: 0,
        place: 0,
    },
    Case {
        name: "outer blanks cut",
        input: b"BITS_POST /a HTTP/1.1\r\nContent-Length:\t 0 \t\r\nBITS-Packet-Type:PING\r\n\r\n",
        number: 0,
        place: 0,
    },
    Case {
        name: "number of nineteen zeros",
        input: b"BITS_POST /a HTTP/1.1\r\nContent-Length: 0000000000000000000\r\nBITS-Packet-Type: PING\r\n\r\n",
        number: 0,
        place: 0,
    },
    Case {
        name: "empty value of an unknown field",
        input: b"BITS_POST /a HTTP/1.1\r\nContent-Length: 0\r\nBITS-Packet-Type: PING\r\nX:\r\n\r\n",
        number: 0,
        place: 0,
    },
];

pub static TEXT: [Case<&[u8]>; 27] = [
    Case {
        name: "empty input",
        input: b"",
        number: 2,
        place: 0,
    },
    Case {
        name: "head without its end",
        input: b"BITS_POST /a HTTP/1.1\r\nContent-Length: 0\r\nBITS-Packet-Type: PING\r\n",
        number: 2,
        place: 0,
    },
    Case {
        name: "bad line, head without its end",
        input: b"BITS_POST /a HTTP/1.1\r\n folded\r\n",
        number: 2,
        place: 0,
    },
    Case {
        name: "empty first line",
        input: b"\r\nBITS_POST /a HTTP/1.1\r\n\r\n",
        number: 3,
        place: 0,
    },
    Case {
        name: "only an end",
        input: b"\r\n\r\n",
        number: 3,
        place: 0,
    },
    Case {
        name: "other method",
        input: b"POST /a HTTP/1.1\r\n\r\n",
        number: 3,
        place: 0,
    },
    Case {
        name: "method in small letters",
        input: b"bits_post /a HTTP/1.1\r\n\r\n",
        number: 3,
        place: 0,
    },
    Case {
        name: "two spaces",
        input: b"BITS_POST  /a HTTP/1.1\r\n\r\n",
        number: 3,
        place: 0,
    },
    Case {
        name: "other version",
        input: b"BITS_POST /a HTTP/1.0\r\n\r\n",
        number: 3,
        place: 0,
    },
    Case {
        name: "path without slash",
        input: b"BITS_POST a HTTP/1.1\r\n\r\n",
        number: 3,
        place: 0,
    },
    Case {
        name: "no path",
        input: b"BITS_POST  HTTP/1.1\r\n\r\n",
        number: 3,
        place: 0,
    },
    Case {
        name: "path with a space",
        input: b"BITS_POST /a b HTTP/1.1\r\n\r\n",
        number: 3,
        place: 0,
    },
    Case {
        name: "path with a byte above 126",
        input: b"BITS_POST /\x7f HTTP/1.1\r\n\r\n",
        number: 3,
        place: 0,
    },
    Case {
        name: "folded line",
        input: b"BITS_POST /a HTTP/1.1\r\nContent-Length: 0\r\n more\r\n\r\n",
        number: 3,
        place: 42,
    },
    Case {
        name: "line without a colon",
        input: b"BITS_POST /a HTTP/1.1\r\nContent-Length: 0\r\nHost\r\n\r\n",
        number: 3,
        place: 42,
    },
    Case {
        name: "empty name",
        input: b"BITS_POST /a HTTP/1.1\r\nContent-Length: 0\r\n: x\r\n\r\n",
        number: 3,
        place: 42,
    },
    Case {
        name: "blank before the colon",
        input: b"BITS_POST /a HTTP/1.1\r\nContent-Length: 0\r\nHost : x\r\n\r\n",
        number: 3,
        place: 42,
    },
    Case {
        name: "at sign in a name",
        input: b"BITS_POST /a HTTP/1.1\r\na@b: x\r\n\r\n",
        number: 3,
        place: 23,
    },
    Case {
        name: "zero byte in a value",
        input: b"BITS_POST /a HTTP/1.1\r\nContent-Length: 0\r\nX: a\x00b\r\n\r\n",
        number: 3,
        place: 42,
    },
    Case {
        name: "bare CR in a value",
        input: b"BITS_POST /a HTTP/1.1\r\nContent-Length: 0\r\nX: a\rb\r\n\r\n",
        number: 3,
        place: 42,
    },
    Case {
        name: "bare LF in a value",
        input: b"BITS_POST /a HTTP/1.1\r\nContent-Length: 0\r\nX: a\nb\r\n\r\n",
        number: 3,
        place: 42,
    },
    Case {
        name: "CR before the end",
        input: b"BITS_POST /a HTTP/1.1\r\nContent-Length: 0\r\nX: a\r\r\n\r\n",
        number: 3,
        place: 42,
    },
    Case {
        name: "DEL in a value",
        input: b"BITS_POST /a HTTP/1.1\r\nContent-Length: 0\r\nX: \x7f\r\n\r\n",
        number: 3,
        place: 42,
    },
    Case {
        name: "first of two bad lines",
        input: b"BITS_POST /a HTTP/1.1\r\none\r\ntwo\r\n\r\n",
        number: 3,
        place: 23,
    },
    Case {
        name: "bad line after a repeat",
        input: b"BITS_POST /a HTTP/1.1\r\nContent-Length: 0\r\nContent-Length: 0\r\nbad\r\n\r\n",
        number: 3,
        place: 61,
    },
    Case {
        name: "known field again",
        input: b"BITS_POST /a HTTP/1.1\r\nContent-Length: 0\r\nBITS-Packet-Type: PING\r\ncontent-LENGTH: 0\r\n\r\n",
        number: 4,
        place: 66,
    },
    Case {
        name: "first of two repeats, not needed",
        input: b"BITS_POST /a HTTP/1.1\r\nContent-Length: 0\r\nBITS-Session-Id: a\r\nbits-session-id: b\r\nContent-length: 0\r\nBITS-Packet-Type: PING\r\n\r\n",
        number: 4,
        place: 62,
    },
];

pub static FIELDS: [Case<&[u8]>; 29] = [
    Case {
        name: "no fields",
        input: b"BITS_POST /a HTTP/1.1\r\n\r\n",
        number: 5,
        place: 0,
    },
    Case {
        name: "no Content-Length",
        input: b"BITS_POST /a HTTP/1.1\r\nBITS-Packet-Type: PING\r\n\r\n",
        number: 5,
        place: 0,
    },
    Case {
        name: "empty Content-Length",
        input: b"BITS_POST /a HTTP/1.1\r\nContent-Length:\r\nBITS-Packet-Type: PING\r\n\r\n",
        number: 5,
        place: 23,
    },
    Case {
        name: "Content-Length of twenty digits",
        input: b"BITS_POST /a HTTP/1.1\r\nContent-Length: 00000000000000000000\r\nBITS-Packet-Type: PING\r\n\r\n",
        number: 5,
        place: 23,
    },
    Case {
        name: "Content-Length with a sign",
        input: b"BITS_POST /a HTTP/1.1\r\nContent-Length: +0\r\nBITS-Packet-Type: PING\r\n\r\n",
        number: 5,
        place: 23,
    },
    Case {
        name: "ping with a body",
        input: b"BITS_POST /a HTTP/1.1\r\nBITS-Packet-Type: PING\r\nContent-Length: 5\r\n\r\n",
        number: 5,
        place: 47,
    },
    Case {
        name: "no type, length 5",
        input: b"BITS_POST /a HTTP/1.1\r\nContent-Length: 5\r\n\r\n",
        number: 5,
        place: 23,
    },
    Case {
        name: "no type, length 0",
        input: b"BITS_POST /a HTTP/1.1\r\nContent-Length: 0\r\n\r\n",
        number: 5,
        place: 0,
    },
    Case {
        name: "unknown type",
        input: b"BITS_POST /a HTTP/1.1\r\nContent-Length: 0\r\nBITS-Packet-Type: PONG\r\n\r\n",
        number: 5,
        place: 42,
    },
    Case {
        name: "close without an id",
        input: b"BITS_POST /a HTTP/1.1\r\nContent-Length: 0\r\nBITS-Packet-Type: CLOSE-SESSION\r\n\r\n",
        number: 5,
        place: 0,
    },
    Case {
        name: "id too short",
        input: b"BITS_POST /a HTTP/1.1\r\nContent-Length: 0\r\nBITS-Packet-Type: CLOSE-SESSION\r\nBITS-Session-Id: {00000000-0000-0001-0000-00000000001}\r\n\r\n",
        number: 5,
        place: 75,
    },
    Case {
        name: "colon for a digit of an id",
        input: b"BITS_POST /a HTTP/1.1\r\nContent-Length: 0\r\nBITS-Packet-Type: CLOSE-SESSION\r\nBITS-Session-Id: {00000000-0000-0001-0000-00000000000:}\r\n\r\n",
        number: 5,
        place: 75,
    },
    Case {
        name: "at sign for a digit of an id",
        input: b"BITS_POST /a HTTP/1.1\r\nContent-Length: 0\r\nBITS-Packet-Type: CLOSE-SESSION\r\nBITS-Session-Id: {00000000-0000-0001-0000-00000000000@}\r\n\r\n",
        number: 5,
        place: 75,
    },
    Case {
        name: "G for a digit of an id",
        input: b"BITS_POST /a HTTP/1.1\r\nContent-Length: 0\r\nBITS-Packet-Type: CLOSE-SESSION\r\nBITS-Session-Id: {00000000-0000-0001-0000-00000000000G}\r\n\r\n",
        number: 5,
        place: 75,
    },
    Case {
        name: "backtick for a digit of an id",
        input: b"BITS_POST /a HTTP/1.1\r\nContent-Length: 0\r\nBITS-Packet-Type: CLOSE-SESSION\r\nBITS-Session-Id: {00000000-0000-0001-0000-00000000000`}\r\n\r\n",
        number: 5,
        place: 75,
    },
    Case {
        name: "g for a digit of an id",
        input: b"BITS_POST /a HTTP/1.1\r\nContent-Length: 0\r\nBITS-Packet-Type: CLOSE-SESSION\r\nBITS-Session-Id: {00000000-0000-0001-0000-00000000000g}\r\n\r\n",
        number: 5,
        place: 75,
    },
    Case {
        name: "slash for a digit of an id",
        input: b"BITS_POST /a HTTP/1.1\r\nContent-Length: 0\r\nBITS-Packet-Type: CLOSE-SESSION\r\nBITS-Session-Id: {00000000-0000-0001-0000-00000000000/}\r\n\r\n",
        number: 5,
        place: 75,
    },
    Case {
        name: "fragment without a range",
        input: b"BITS_POST /a HTTP/1.1\r\nContent-Length: 4\r\nBITS-Packet-Type: FRAGMENT\r\nBITS-Session-Id: {00000000-0000-0001-0000-00000000000a}\r\n\r\n",
        number: 5,
        place: 0,
    },
    Case {
        name: "range with no blank",
        input: b"BITS_POST /a HTTP/1.1\r\nContent-Length: 4\r\nBITS-Packet-Type: FRAGMENT\r\nBITS-Session-Id: {00000000-0000-0001-0000-00000000000a}\r\nContent-Range: bytes0-3/9\r\n\r\n",
        number: 5,
        place: 127,
    },
    Case {
        name: "range with other unit",
        input: b"BITS_POST /a HTTP/1.1\r\nContent-Length: 4\r\nBITS-Packet-Type: FRAGMENT\r\nBITS-Session-Id: {00000000-0000-0001-0000-00000000000a}\r\nContent-Range: lines 0-3/9\r\n\r\n",
        number: 5,
        place: 127,
    },
    Case {
        name: "range with star",
        input: b"BITS_POST /a HTTP/1.1\r\nContent-Length: 4\r\nBITS-Packet-Type: FRAGMENT\r\nBITS-Session-Id: {00000000-0000-0001-0000-00000000000a}\r\nContent-Range: bytes 0-3/*\r\n\r\n",
        number: 5,
        place: 127,
    },
    Case {
        name: "range with blank inside",
        input: b"BITS_POST /a HTTP/1.1\r\nContent-Length: 4\r\nBITS-Packet-Type: FRAGMENT\r\nBITS-Session-Id: {00000000-0000-0001-0000-00000000000a}\r\nContent-Range: bytes 0 -3/9\r\n\r\n",
        number: 5,
        place: 127,
    },
    Case {
        name: "range with no last",
        input: b"BITS_POST /a HTTP/1.1\r\nContent-Length: 4\r\nBITS-Packet-Type: FRAGMENT\r\nBITS-Session-Id: {00000000-0000-0001-0000-00000000000a}\r\nContent-Range: bytes 0-/9\r\n\r\n",
        number: 5,
        place: 127,
    },
    Case {
        name: "range with twenty digits",
        input: b"BITS_POST /a HTTP/1.1\r\nContent-Length: 4\r\nBITS-Packet-Type: FRAGMENT\r\nBITS-Session-Id: {00000000-0000-0001-0000-00000000000a}\r\nContent-Range: bytes 0-3/10000000000000000000\r\n\r\n",
        number: 5,
        place: 127,
    },
    Case {
        name: "range with at sign unit",
        input: b"BITS_POST /a HTTP/1.1\r\nContent-Length: 4\r\nBITS-Packet-Type: FRAGMENT\r\nBITS-Session-Id: {00000000-0000-0001-0000-00000000000a}\r\nContent-Range: b@tes 0-3/9\r\n\r\n",
        number: 5,
        place: 127,
    },
    Case {
        name: "order of judging, id before range",
        input: b"BITS_POST /a HTTP/1.1\r\nContent-Length: 4\r\nContent-Range: x\r\nBITS-Packet-Type: FRAGMENT\r\nBITS-Session-Id: x\r\n\r\n",
        number: 5,
        place: 88,
    },
    Case {
        name: "gzip",
        input: b"BITS_POST /a HTTP/1.1\r\nContent-Length: 4\r\nBITS-Packet-Type: FRAGMENT\r\nBITS-Session-Id: {00000000-0000-0001-0000-00000000000a}\r\nContent-Range: bytes 0-3/9\r\nContent-Encoding: gzip\r\n\r\n",
        number: 5,
        place: 155,
    },
    Case {
        name: "empty encoding",
        input: b"BITS_POST /a HTTP/1.1\r\nContent-Length: 4\r\nBITS-Packet-Type: FRAGMENT\r\nBITS-Session-Id: {00000000-0000-0001-0000-00000000000a}\r\nContent-Range: bytes 0-3/9\r\nContent-Encoding:\r\n\r\n",
        number: 5,
        place: 155,
    },
    Case {
        name: "create without protocols",
        input: b"BITS_POST /a HTTP/1.1\r\nContent-Length: 0\r\nBITS-Packet-Type: CREATE-SESSION\r\n\r\n",
        number: 5,
        place: 0,
    },
];

pub static PROTOCOLS: [Case<&[u8]>; 9] = [
    Case {
        name: "our protocol among two",
        input: b"BITS_POST /a HTTP/1.1\r\nContent-Length: 0\r\nBITS-Packet-Type: CREATE-SESSION\r\nBITS-Supported-Protocols: {7df0354d-249b-430f-820d-3d2a9bef4932} ,\t{7df0354d-249b-430f-820d-3d2a9bef4931}\r\n\r\n",
        number: 0,
        place: 0,
    },
    Case {
        name: "our protocol in capitals",
        input: b"BITS_POST /a HTTP/1.1\r\nContent-Length: 0\r\nBITS-Packet-Type: CREATE-SESSION\r\nBITS-Supported-Protocols: {7DF0354D-249B-430F-820D-3D2A9BEF4931}\r\n\r\n",
        number: 0,
        place: 0,
    },
    Case {
        name: "only another protocol",
        input: b"BITS_POST /a HTTP/1.1\r\nContent-Length: 0\r\nBITS-Packet-Type: CREATE-SESSION\r\nBITS-Supported-Protocols: {7df0354d-249b-430f-820d-3d2a9bef4932}\r\n\r\n",
        number: 0,
        place: 0,
    },
    Case {
        name: "protocols, empty list",
        input: b"BITS_POST /a HTTP/1.1\r\nContent-Length: 0\r\nBITS-Packet-Type: CREATE-SESSION\r\nBITS-Supported-Protocols: \r\n\r\n",
        number: 5,
        place: 76,
    },
    Case {
        name: "protocols, comma in front",
        input: b"BITS_POST /a HTTP/1.1\r\nContent-Length: 0\r\nBITS-Packet-Type: CREATE-SESSION\r\nBITS-Supported-Protocols: ,{7df0354d-249b-430f-820d-3d2a9bef4931}\r\n\r\n",
        number: 5,
        place: 76,
    },
    Case {
        name: "protocols, comma at the end",
        input: b"BITS_POST /a HTTP/1.1\r\nContent-Length: 0\r\nBITS-Packet-Type: CREATE-SESSION\r\nBITS-Supported-Protocols: {7df0354d-249b-430f-820d-3d2a9bef4931},\r\n\r\n",
        number: 5,
        place: 76,
    },
    Case {
        name: "protocols, no separator",
        input: b"BITS_POST /a HTTP/1.1\r\nContent-Length: 0\r\nBITS-Packet-Type: CREATE-SESSION\r\nBITS-Supported-Protocols: {7df0354d-249b-430f-820d-3d2a9bef4931}{7df0354d-249b-430f-820d-3d2a9bef4932}\r\n\r\n",
        number: 5,
        place: 76,
    },
    Case {
        name: "protocols, other separator",
        input: b"BITS_POST /a HTTP/1.1\r\nContent-Length: 0\r\nBITS-Packet-Type: CREATE-SESSION\r\nBITS-Supported-Protocols: {7df0354d-249b-430f-820d-3d2a9bef4931};{7df0354d-249b-430f-820d-3d2a9bef4932}\r\n\r\n",
        number: 5,
        place: 76,
    },
    Case {
        name: "protocols, broken second id",
        input: b"BITS_POST /a HTTP/1.1\r\nContent-Length: 0\r\nBITS-Packet-Type: CREATE-SESSION\r\nBITS-Supported-Protocols: {7df0354d-249b-430f-820d-3d2a9bef4931} {7df0354d-249b-430f-820d-3d2a9bef4932\r\n\r\n",
        number: 5,
        place: 76,
    },
];
