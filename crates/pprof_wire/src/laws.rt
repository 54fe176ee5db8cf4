//! Laws of the wire format. Each function does nothing: what it ensures is the law.
#![tactic(auto, using(crate::proofs::Steps::laws))]

ghost use Rattle.std.specs.Prelude.{◌≡◌, ℕ, List, [], ◌∷◌, ◌+◌, ◌^◌, ◌<◌, ◌≤◌, ◌⊎◌, ◌++◌, length};
ghost use Rattle.pprof_wire.specs.declared.faults.WireFault.{WireFault};
ghost use Rattle.pprof_wire.specs.Varints.{IsVarint, IsVarintFault, IsNumberList, SplitsIntoNumbers, varint_of};
ghost use Rattle.pprof_wire.specs.Fields.{PlainField, IsFieldNumber, FitsValue, IsFieldSpelling, IsFieldList};
ghost use Rattle.pprof_wire.specs.Fields.{SplitsIntoFields, IsRestFault, field_bytes_of};

/// No spelling of a number begins another, and it has one number.
pub fn one_spelling()
    ensures { (a b x y : List ℕ) → (m n : ℕ)
        → IsVarint a m → IsVarint b n → a ++ x ≡ b ++ y → (a ≡ b) × (x ≡ y) × (m ≡ n) }
{}

/// Where a number is spelled there is no fault, and else there is one fault.
pub fn one_number_or_fault()
    ensures number { (fault : WireFault) → (a x : List ℕ) → (number : ℕ)
        → IsVarint a number → IsVarintFault fault (a ++ x) → ⊥ }
    ensures fault { (one other : WireFault) → (bytes : List ℕ)
        → IsVarintFault one bytes → IsVarintFault other bytes → one ≡ other }
{}

/// The tenth byte of a spelling is 0 or 1.
pub fn small_tenth_byte()
    ensures { (front : List ℕ) → (tenth number : ℕ) → length front ≡ 9
        → IsVarint (front ++ tenth ∷ []) number → tenth ≤ 1 }
{}

/// Each number of 64 bits has a spelling, and the one that is written is the shortest.
pub fn shortest_spelling()
    ensures spells { (number : ℕ) → number < 2 ^ 64 → IsVarint (varint_of number) number }
    ensures shortest { (bytes : List ℕ) → (number : ℕ)
        → IsVarint bytes number → length (varint_of number) ≤ length bytes }
{}

/// No field's spelling begins another, and it has one field.
pub fn one_field()
    ensures { (a b x y : List ℕ) → (f g : PlainField)
        → IsFieldSpelling a f → IsFieldSpelling b g → a ++ x ≡ b ++ y → (a ≡ b) × (x ≡ y) × (f ≡ g) }
{}

/// Where a field stands there is no fault, and else there is one fault.
pub fn one_field_or_fault()
    ensures field { (fault : WireFault) → (a x : List ℕ) → (field : PlainField)
        → IsFieldSpelling a field → IsRestFault fault (a ++ x) → ⊥ }
    ensures fault { (one other : WireFault) → (bytes : List ℕ)
        → IsRestFault one bytes → IsRestFault other bytes → one ≡ other }
{}

/// Bytes are in one way whole fields and a rest that begins with none.
pub fn one_split_into_fields()
    ensures { (bytes r s : List ℕ) → (xs ys : List PlainField)
        → SplitsIntoFields bytes xs r → SplitsIntoFields bytes ys s → (xs ≡ ys) × (r ≡ s) }
{}

/// All bytes are whole fields and a rest, and the rest is empty or has a fault.
pub fn each_list_splits_into_fields()
    ensures { (bytes : List ℕ) → (fields : List PlainField) × (rest : List ℕ)
        × SplitsIntoFields bytes fields rest
        × ((rest ≡ []) ⊎ ((fault : WireFault) × IsRestFault fault rest)) }
{}

/// Fields that end the bytes, or stand before a fault, are all the fields of the bytes.
pub fn fields_up_to_the_end_or_a_fault()
    ensures end { (bytes : List ℕ) → (fields : List PlainField)
        → IsFieldList bytes fields → SplitsIntoFields bytes fields [] }
    ensures fault { (front rest : List ℕ) → (fields : List PlainField) → (fault : WireFault)
        → IsFieldList front fields → IsRestFault fault rest
        → SplitsIntoFields (front ++ rest) fields rest }
{}

/// The fields of two lists written one after the other are the fields of both.
pub fn field_lists_join()
    ensures one { (bytes : List ℕ) → (field : PlainField)
        → IsFieldSpelling bytes field → IsFieldList bytes (field ∷ []) }
    ensures both { (a b : List ℕ) → (xs ys : List PlainField)
        → IsFieldList a xs → IsFieldList b ys → IsFieldList (a ++ b) (xs ++ ys) }
{}

/// What is written is read back as the same field.
pub fn written_field_reads_back()
    ensures { (field : PlainField)
        → IsFieldNumber field.number → FitsValue field.value → IsFieldSpelling (field_bytes_of field) field }
{}

/// Bytes are in one way whole numbers and a rest that begins with none.
pub fn one_split_into_numbers()
    ensures { (bytes r s xs ys : List ℕ)
        → SplitsIntoNumbers bytes xs r → SplitsIntoNumbers bytes ys s → (xs ≡ ys) × (r ≡ s) }
{}

/// All bytes are whole numbers and a rest, and the rest is empty or has a fault.
pub fn each_list_splits_into_numbers()
    ensures { (bytes : List ℕ) → (numbers : List ℕ) × (rest : List ℕ)
        × SplitsIntoNumbers bytes numbers rest
        × ((rest ≡ []) ⊎ ((fault : WireFault) × IsVarintFault fault rest)) }
{}

/// Numbers that end the bytes, or stand before a fault, are all the numbers of the bytes.
pub fn numbers_up_to_the_end_or_a_fault()
    ensures end { (bytes numbers : List ℕ)
        → IsNumberList bytes numbers → SplitsIntoNumbers bytes numbers [] }
    ensures fault { (front rest numbers : List ℕ) → (fault : WireFault)
        → IsNumberList front numbers → IsVarintFault fault rest
        → SplitsIntoNumbers (front ++ rest) numbers rest }
{}

/// The numbers of two lists written one after the other are the numbers of both.
pub fn number_lists_join()
    ensures one { (bytes : List ℕ) → (number : ℕ)
        → IsVarint bytes number → IsNumberList bytes (number ∷ []) }
    ensures both { (a b xs ys : List ℕ)
        → IsNumberList a xs → IsNumberList b ys → IsNumberList (a ++ b) (xs ++ ys) }
{}
