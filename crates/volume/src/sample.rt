// The smallest example of the format.
ghost use Rattle.std.specs.Prelude.{◌≡◌, [], ◌∷◌, ◌++◌, length, codes};
ghost use Rattle.volume.specs.Bundles.{Volume, trailer};

// The byte 0x41 under the name "/a": a volume of one bundle.
pub fn example() -> [u8; 19]
    ensures long { length result ≡ 19 }
    ensures bytes { result ≡ 0x41 ∷ (codes "/a" ++ trailer 3 2) }
    ensures volume { Volume result (record { entity = 0x41 ∷ []; name = codes "/a" } ∷ []) }
{
    *b"A/a\0\0\0\0\0\0\0\x03\0\x02\0\0HALL"
}
