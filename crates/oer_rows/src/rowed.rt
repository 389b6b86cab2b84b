//! Types whose components stand in a row.
ghost use Rattle.std.specs.Prelude.{IfOk, IfErr};
ghost use Rattle.oer_read.specs.Parts.{ReadsParts};
ghost use Rattle.oer_rows.specs.Schema.{IsOf};

use asn1_core::DecodeError;
use oer_read::Decoder;
use std::alloc::Global;

/// A type whose components stand in a row: what the row says of them, under the type's own name.
///
/// So who names the type isn't led on to the row, all of whose cells the check would write out there.
pub trait Rowed {
    ghost use Rattle.std.specs.Prelude.{◌≡◌, Bool};
    ghost use Rattle.oer_rows.specs.Schema.{Schema, IsSchema};

    /// The values of the row.
    type Values;

    ghost EXTENSIBLE: { Bool };

    /// Whether additions may follow the row's root components.
    const EXTENSIBLE: bool;

    ghost row_schema: { Schema Self.Values };

    ghost row_is_schema: { IsSchema row_schema EXTENSIBLE };

    ghost components: { Self → Self.Values };

    /// The value that has these components.
    fn from_row(row: Self::Values) -> Self
        ensures { components result ≡ row };
}

/// A type that is read by its row.
pub trait Takes: Rowed + Drop {
    ghost use Rattle.asn1_core.specs.declared.error.DecodeError.{DecodeError};
    ghost use Rattle.oer_read.specs.State.{State};

    /// Why reading the components is refused: which of them is, and by what (`Reads::Refuses` of the row).
    ghost Refuses: { State → DecodeError → Type 0 };

    /// Reads the components in the order of the row, inside the scope of a sequence (X.696, 16): `read_row`.
    ///
    /// Refused, the first that applies, as the calls of `Decoder` refuse that read each component.
    fn take(alloc: Global, decoder: &mut Decoder<'_>) -> Result<Self, DecodeError>
        ensures read { ReadsParts Self.row_schema.roots.parts Self.row_schema.additions.parts (λ v. Self.row_schema.roots.rows (Self.components v)) (λ v. Self.row_schema.additions.rows (Self.components v)) decoder.old result decoder.new }
        ensures value { IfOk result (λ v. IsOf Self.row_schema (Self.components v)) }
        ensures refused { IfErr result (λ e. Self.Refuses decoder.old e) };
}

/// The schema of a type, by which a type of one's own says its tree, its admitted values and its tables.
pub trait Schemed {
    ghost use Rattle.std.specs.Prelude.{Bool};
    ghost use Rattle.oer_rows.specs.Schema.{Schema, IsSchema};

    ghost extensible: { Bool };

    ghost schema: { Schema Self };

    ghost is_schema: { IsSchema schema extensible };
}

impl<T: Rowed> Schemed for T {
    ghost use Rattle.oer_rows.specs.Schema.{through, through_is};

    ghost extensible = { T.EXTENSIBLE };

    ghost schema = { through T.components T.row_schema };

    ghost is_schema = { through_is T.components T.row_schema T.EXTENSIBLE T.row_is_schema };
}
