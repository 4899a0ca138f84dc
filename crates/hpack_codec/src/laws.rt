// What holds of blocks themselves.
ghost use Rattle.std.specs.Prelude.{◌≡◌, ◌≤◌, ◌+◌, ◌∷◌, [], Bool, List, Result, length, ℕ};
ghost use Rattle.hpack_codec.specs.Encoding.{encode_block};
ghost use Rattle.hpack_codec.specs.Sections.{BlockIs, list_size};
ghost use Rattle.hpack_codec.specs.Spelling.{IsSpelling};
ghost use Rattle.hpack_codec.specs.Table.{Table};
ghost use Rattle.hpack_codec.specs.declared.fault.HpackFault.{HpackFault};
ghost use Rattle.hpack_codec.specs.declared.fields.Field.{Field};

/// A block comes to one thing: one list and one table after it, or one fault.
pub fn one_reading()
    ensures { (greatest : ℕ) (block : List ℕ) (before : Table) (one other : Result (List Field × Table) HpackFault) →
        BlockIs greatest block before one → BlockIs greatest block before other → one ≡ other }
{}

/// A block that this side writes has at most one octet more than its list counts (RFC 7541 section 4.1), the size update
/// among them.
pub fn block_fits()
    ensures { (anew : Bool) (fields : List Field) → length (encode_block anew fields) ≤ list_size fields + 1 }
{}

/// The integers of RFC 7541 Appendix C.1, and numbers beside the ends of the prefixes. The definitions that the decoder
/// and the encoder are proved to follow give these spellings, and no other number for them.
pub fn integer_spellings()
    ensures c_1_1 { IsSpelling 5 0 10 (10 ∷ []) }
    ensures c_1_2 { IsSpelling 5 0 1337 (31 ∷ 154 ∷ 10 ∷ []) }
    ensures c_1_3 { IsSpelling 8 0 42 (42 ∷ []) }
    ensures below_full { IsSpelling 7 1 126 (254 ∷ []) }
    ensures full { IsSpelling 7 1 127 (255 ∷ 0 ∷ []) }
    ensures one_behind { IsSpelling 7 1 254 (255 ∷ 127 ∷ []) }
    ensures two_behind { IsSpelling 7 1 255 (255 ∷ 128 ∷ 1 ∷ []) }
    ensures greatest { IsSpelling 4 0 4294967295 (15 ∷ 240 ∷ 255 ∷ 255 ∷ 255 ∷ 15 ∷ []) }
{}
