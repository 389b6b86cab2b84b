//! What can be written in place of a type that isn't read.

/// What can be read where a word of X.680 stands that begins no type which is read.
pub fn instead_of(word: &str) -> &'static str {
    match word {
        "REAL" | "VideotexString" | "RELATIVE-OID" | "OID-IRI" | "RELATIVE-OID-IRI" =>
            "OCTET STRING for its octets, as docs/COMPILER.md says",
        "TIME" | "TIME-OF-DAY" | "DATE-TIME" | "DURATION" =>
            "OCTET STRING for its octets, as docs/COMPILER.md says",
        "EMBEDDED" | "CHARACTER" =>
            "EMBEDDED PDV or CHARACTER STRING with constraints that docs/COMPILER.md lists",
        "CLASS" | "TYPE-IDENTIFIER" | "ABSTRACT-SYNTAX" => "a type, as a field of that class",
        "INSTANCE" => "INSTANCE OF a class that is assigned or imported",
        _ => "a type that docs/COMPILER.md lists",
    }
}
