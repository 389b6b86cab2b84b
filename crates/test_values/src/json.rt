//! Octets of JSON, by hand from X.696: a row has a type, JSON, and behind `=>` the octets or the refusal.

use oer_json::{Refusal, TableError, Tables, octets_of};
use std::alloc::Global;

/// A table of one type of each form, and of some under constraints.
const TABLE: &str =
    r#"words 50 51 52 53 56 59 61 63 64 66 67 68 71 73 75 77 80 82 84 86 89 91 93 95 97 99 101 104 107 127 149 159 169 172 175 177 179 182 183 184 185 188 190 191 192 202 203 206 207 208 210 0 1 2 1 1 2 2 0 3 1 3 0 4 5 12 6 6 7 2 0 8 0 8 1 8 2 7 2 3 8 4 8 5 8 9 7 4 9 8 6 8 20 8 21 8 22 8 23 8 24 10 0 32 10 1 33 12 1 3 1 0 2 0 34 1 2 1 35 2 1 63 36 3 2 2 37 11 1 3 3 4 0 38 5 1 39 6 1 40 7 1 41 11 1 43 10 1 25 11 0 2 0 13 0 45 12 0 44 11 1 1 1 14 0 46 15 0 47 10 0 31 2 2 0 8 0 8 5 2 1 1 0 0 0 2 2 0 8 1 0 0 11 0 2 0 8 0 6 9 1 42 0 2 1 1 0 0 8 10 7 4 10
name text
name number
name far
name later
name on
name level
name note
name extra
name colour
name near
name kinds
name [[1]]
name second
name first
name octets
name value
type Truth
type Nothing
type Small
type Level
type Whole
type Positive
type Colour
type Key
type Flags
type Few
type Id
type Blob
type Note
type Digits
type Word
type Line
type Ascii
type Wide
type Pair
type Loose
type Name
type Short
type Long
type Day
type Open
type Levels
type Bag
type Part
type Letter
type Mixed
type Newer
type Loop
type Level
type Blob
type Ascii
type Small
type Truth
type Truth
type Truth
type Level
type Note
type Truth
type Truth
type group
type Truth
type Small
type Truth
type Truth
type Widest
type Sign
value 6 0 red
value 6 300 far
value 6 -129 cold
value 6 1180591620717411303424 huge
range 2 -5 5
range 3 0 65535
range 5 0 MAX
range 32 0 65535
range 35 -5 5
range 39 0 65535
range 45 -5 5
size 7 12 12
size 9 3 6
size 10 2 2
size 11 1 3
size 13 1 4
size 14 2 2
size 18 2 2
size 33 1 3
size 48 1 2
size 49 1 1
default 28 1 7
default 43 1 true"#;

const ROWS: &str = r#"Truth true => ff
Truth false => 00
Truth 1 => WrongSort at $: expected true or false
Truth tru => NotJson
Nothing null =>
Nothing 0 => WrongSort at $: expected null
Small -5 => fb
Small 5 => 05
Small 6 => OutOfRange at $: expected a number from -5 to 5
Level 300 => 012c
Level "300" => WrongSort at $: expected an integer
Whole 0 => 0100
Whole 128 => 020080
Whole -128 => 0180
Whole -129 => 02ff7f
Whole 18446744073709551616 => 09010000000000000000
Whole -170141183460469231731687303715884105728 => 1080000000000000000000000000000000
Whole "0080000000000000000000000000000000" => 110080000000000000000000000000000000
Whole "000080000000000000000000000000000000" => WrongSort at $: expected an integer
Whole "7F" => WrongSort at $: expected an integer
Whole 170141183460469231731687303715884105728 => NumberTooLarge at $: expected an integer of at most 128 bits
Whole 1.5 => NumberTooLarge at $: expected an integer of at most 128 bits
Positive 128 => 0180
Positive "80000000000000000000000000000000" => 1080000000000000000000000000000000
Positive "7F000000000000000000000000000000" => WrongSort at $: expected an integer
Positive -1 => OutOfRange at $: expected a number from 0 to MAX
Colour "red" => 00
Colour "far" => 82012c
Colour "cold" => 82ff7f
Colour "blue" => UnknownName at $: expected a name of the type's values
Colour 0 => UnknownName at $: expected a name of the type's values
Colour "huge" => NotWritten at $: expected a value that is written
Key "8010" => 8010
Key "801F" => UnusedBits at $: expected zero bits behind the last one
Key "80" => WrongLength at $: expected as many octets as the bits need
Flags {"value":"A0","length":4} => 0204a0
Flags {"length":4,"value":"A0"} => 0204a0
Flags {"value":"","length":0} => 0100
Flags {"value":"A0","length":9} => WrongLength at $: expected as many octets as the bits need
Flags {"value":"A0","length":-4} => WrongLength at $: expected as many octets as the bits need
Flags {"value":"A8","length":4} => UnusedBits at $: expected zero bits behind the last one
Flags "A0" => WrongSort at $: expected an object of value and length
Few {"value":"E0","length":3} => 0205e0
Few {"value":"C0","length":2} => WrongSize at $: expected a size from 3 to 6
Id "AABB" => aabb
Id "AA" => WrongSize at $: expected a size from 2 to 2
Id "AAB" => NoHexadecimal at $: expected pairs of hexadecimal digits
Blob "7f" => 017f
Blob "" => WrongSize at $: expected a size from 1 to 3
Note "\u00e9!" => 03c3a921
Note 1 => WrongSort at $: expected a text
Digits "12 3" => 0431322033
Digits "1a" => NotInAlphabet at $: expected characters of a NumericString
Digits "12345" => WrongSize at $: expected a size from 1 to 4
Word "Ab" => 4162
Word "a*" => NotInAlphabet at $: expected characters of a PrintableString
Word "abc" => WrongSize at $: expected a size from 2 to 2
Line "~" => 017e
Line "\t" => NotInAlphabet at $: expected characters of a VisibleString
Ascii "\u0000\u007f" => 02007f
Ascii "\u00e9" => NotInAlphabet at $: expected characters of a IA5String
Wide "\u00e9\u20ac" => 0400e920ac
Wide "\ud83d\ude00" => NotInAlphabet at $: expected characters of a BMPString
Wide {"octets":"D83D"} => 02d83d
Wide {"octets":"D8"} => NotInAlphabet at $: expected characters of a BMPString
Wide {"octets":"D8 3D"} => NoHexadecimal at $: expected pairs of hexadecimal digits
Widest "\u00e9\ud83d\ude00" => 08000000e90001f600
Widest "\ud83d" => NotJson
Widest "abc" => WrongSize at $: expected a size from 1 to 2
Widest {"octets":"FFFFFFFF"} => 04ffffffff
Widest {"octets":"0000D83D0000DE00"} => 080000d83d0000de00
Widest {"octets":"0001F6"} => NotInAlphabet at $: expected characters of a UniversalString
Widest {"octets":""} => WrongSize at $: expected a size from 1 to 2
Widest 65 => WrongSort at $: expected a text
Sign "\ud83d\ude00" => 0001f600
Sign "" => WrongSize at $: expected a size from 1 to 1
Sign {"octets":"00110000"} => 00110000
Sign {"octets":"0000004100"} => NotInAlphabet at $: expected characters of a UniversalString
Sign {"octets":"0000004100000042"} => WrongSize at $: expected a size from 1 to 1
Pair "ab" => 00610062
Pair "a" => WrongSize at $: expected a size from 2 to 2
Pair {"octets":"D83DDE00"} => d83dde00
Pair {"octets":"D83DDE"} => NotInAlphabet at $: expected characters of a BMPString
Loose "\u00e9" => 02c3a9
Loose {"octets":"E9"} => 01e9
Note {"octets":"E9"} => WrongSort at $: expected a text
Name "1.2.840" => 032a8648
Name "2.999.3" => 03883703
Name "1" => NoIdentifier at $: expected an object identifier, as 1.2.840
Name "1.40" => NoIdentifier at $: expected an object identifier, as 1.2.840
Name "1.+2" => NoIdentifier at $: expected an object identifier, as 1.2.840
Short "500101000000Z" => 0d3530303130313030303030305a
Short "5001010000Z" => NoTime at $: expected YYMMDDhhmmssZ
Long "20000101000000.5Z" => 1132303030303130313030303030302e355a
Long "20000101000000.50Z" => NoTime at $: expected YYYYMMDDhhmmssZ, or with a point and 1 to 9 digits before the Z
Day "20240229" => 083230323430323239
Day "20230229" => NoTime at $: expected YYYYMMDD
Open "0102" => 020102
Levels [] => 0100
Levels [1,256] => 010200010100
Levels [1,70000] => OutOfRange at $[1]: expected a number from 0 to 65535
Levels {} => WrongSort at $: expected a list
Bag ["02","01FF","01"] => 0103010101020201ff
Part {"text":"hi"} => 80026869
Part {"number":5} => 8105
Part {"far":true} => 7f3fff
Part {"later":true} => 8201ff
Part {"none":1} => UnknownMember at $.none: expected a component or an alternative of the type
Part {} => WrongSort at $: expected an object of one member
Part {"number":5,"far":true} => WrongSort at $: expected an object of one member
Part {"number":"x"} => WrongSort at $.number: expected an integer
Letter {"on":true} => 00ff
Letter {"on":true,"level":7} => 00ff
Letter {"level":8,"on":true,"note":"a"} => 60ff00080161
Letter {"on":false,"extra":true} => 800002058001ff
Letter {"on":false,"colour":"red"} => 8000020540020000
Letter {"on":false,"colour":"red","near":true} => 8000020540020000
Letter {"on":false,"colour":"red","near":false} => 800002054003800000
Letter {"on":false,"near":false} => MissingComponent at $.colour: expected this component
Letter {"on":false,"near":true} => MissingComponent at $.colour: expected this component
Letter {"on":false,"kinds":[]} => 8000020520020100
Letter {"on":false,"kinds":[1,false]} => WrongSort at $.kinds[1]: expected an integer
Letter {"on":false,"?":"AABB"} => 800002041002aabb
Letter {"on":false,"?":"AABB","extra":true,"?":""} => 800002039801ff02aabb00
Letter {"on":false,"?":7} => WrongSort at $: expected a text in hexadecimal
Letter {"octets":2,"value":{"on":true}} => 00ff
Letter {"on":true,"on":true} => DuplicateMember at $.on: expected each member once
Letter {"on":true,"[[1]]":{}} => UnknownMember at $.[[1]]: expected a component or an alternative of the type
Letter {} => MissingComponent at $.on: expected this component
Letter [] => WrongSort at $: expected an object
Mixed {"second":true,"first":5} => 05ff
Mixed {"second":true,"first":5,"?":"00"} => UnknownMember at $.?: expected a component or an alternative of the type
Newer {"octets":true,"value":false} => 80ff0207800100
Newer {"octets":true} => MissingComponent at $.value: expected this component
Loop [[],[]] => 010201000100"#;

/// Named bits of any size, of 3 to 6 bits, and of a size that has no length.
const NAMED_TABLE: &str = r#"words 3 4 5 6 9 9 9
type Free
type Sized
type Fixed
size 1 3 6
size 2 4 4"#;

const NAMED_ROWS: &str = r#"Free {"value":"A0","length":8} => 0205a0
Free {"value":"A0","length":3} => 0205a0
Free {"value":"0180","length":16} => 03070180
Free {"value":"0000","length":12} => 0100
Free {"value":"","length":0} => 0100
Free {"length":2,"value":"80"} => 020780
Free {"value":"A8","length":4} => UnusedBits at $: expected zero bits behind the last one
Free {"value":"A0","length":9} => WrongLength at $: expected as many octets as the bits need
Free "A0" => WrongSort at $: expected an object of value and length
Sized {"value":"80","length":1} => 020580
Sized {"value":"0000","length":16} => 020500
Sized {"value":"A8","length":8} => 0203a8
Sized {"value":"02","length":7} => WrongSize at $: expected a size from 3 to 6
Fixed {"value":"80","length":4} => UnknownType at $: expected a type that the table describes"#;

/// The octets in hexadecimal, or the refusal; of a text that is no JSON its name alone.
fn answer_of(
    alloc: Global,
    tables: &Tables,
    type_name: &str,
    text: &[u8],
) -> Result<String, Refusal> {
    let type_number = tables.type_of(type_name).unwrap_or(u32::MAX);
    match octets_of(alloc, tables, type_number, text) {
        Ok(octets) => Ok(hex::encode(alloc, octets.as_slice())?),
        Err(Refusal::NotJson(_)) => Ok(String::from_str(alloc, "NotJson")?),
        Err(refusal) => Ok(format!(in alloc; "{refusal}")?),
    }
}

#[test]
fn rows(rt: HostRuntime) {
    let alloc = rt.alloc();
    let tables = Tables::of_lines(alloc, TABLE).expect(&rt, "a table");
    for row in ROWS.lines() {
        let (asked, wanted) = row.split_once(" =>").unwrap_or((row, ""));
        let (type_name, json) = asked.split_once(" ").unwrap_or((asked, ""));
        let answer = answer_of(alloc, &tables, type_name, json.as_bytes()).expect(&rt, "memory");
        assert_eq!(rt; answer.as_str(), wanted.trim(), "{row}");
    }
}

/// Zeros at the end of named bits carry no meaning (X.680, 22.7).
#[test]
fn rows_of_named_bits(rt: HostRuntime) {
    let alloc = rt.alloc();
    let tables = Tables::of_lines(alloc, NAMED_TABLE).expect(&rt, "a table");
    for row in NAMED_ROWS.lines() {
        let (asked, wanted) = row.split_once(" =>").unwrap_or((row, ""));
        let (type_name, json) = asked.split_once(" ").unwrap_or((asked, ""));
        let answer = answer_of(alloc, &tables, type_name, json.as_bytes()).expect(&rt, "memory");
        assert_eq!(rt; answer.as_str(), wanted.trim(), "{row}");
    }
}

#[test]
fn texts_that_are_no_rows(rt: HostRuntime) {
    let alloc = rt.alloc();
    let tables = Tables::of_lines(alloc, TABLE).expect(&rt, "a table");
    let answer = answer_of(alloc, &tables, "Note", b"\"\xff\"").expect(&rt, "memory");
    assert_eq!(rt; answer.as_str(), "NotUtf8: expected UTF-8");
    let answer = answer_of(alloc, &tables, "None", b"1").expect(&rt, "memory");
    assert_eq!(rt;
        answer.as_str(),
        "UnknownType at $: expected a type that the table describes"
    );
}

/// A list of more elements without octets than a walk takes.
#[test]
fn too_many_elements(rt: HostRuntime) {
    let alloc = rt.alloc();
    let tables = Tables::of_lines(alloc, "words 2 3 6 10 0 1 1").expect(&rt, "a table");
    let mut text = String::from_str(alloc, "[null").expect(&rt, "memory");
    for _ in 0..65_536 {
        text.push_str(",null").expect(&rt, "memory");
    }
    text.push(']').expect(&rt, "memory");
    let refused = octets_of(alloc, &tables, 0, text.as_bytes());
    assert!(rt; matches!(refused, Err(Refusal::NotWalked)));
}

/// Each refusal of a line of a table.
#[test]
fn lines_that_are_none(rt: HostRuntime) {
    let alloc = rt.alloc();
    let rows = [
        ("words 1 -2", TableError::NoWord),
        ("sort 1", TableError::NoLine),
        ("value 1 2", TableError::NoParts),
        ("value 1 x y", TableError::NoNumber),
        ("range x 1 2", TableError::NoNumber),
        ("size 1 MAX 2", TableError::NoNumber),
        ("default 1 0 tru", TableError::NoDefault),
    ];
    for (line, wanted) in rows {
        match Tables::of_lines(alloc, line) {
            Ok(_) => assert!(rt; false, "{line}"),
            Err(error) => assert_eq!(rt; error, wanted, "{line}"),
        }
    }
}
