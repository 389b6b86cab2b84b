//! What a type by its row writes in fewer words: its tables, and the pairs and alternatives of its row.

/// The rows of a table of components: the index, the need, the tag's class and number, and the name of each.
#[macro_export]
macro_rules! fields {
    ($($index:literal $presence:ident $class:ident $number:literal $name:literal),*) => {
        &[$($crate::Field {
            index: $index,
            tag: $crate::Tag { class: $crate::Class::$class, value: $number },
            presence: $crate::FieldPresence::$presence,
            name: $name,
        }),*]
    };
}

/// A table of so many components as are listed: `table![0 Required Context 0 "a"]`.
#[macro_export]
macro_rules! table {
    ($($cells:tt)*) => {
        $crate::Fields { fields: $crate::fields![$($cells)*] }
    };
}

/// The rows of a table of additions, none where it is absent: `rows_of!(Self::EXTENDED_FIELDS)`.
#[macro_export]
macro_rules! rows_of {
    ($table:expr) => {
        match $table {
            Some(table) => table.fields,
            None => &[],
        }
    };
}

/// A row's values, one behind another: `pairs![a, b]` is `Both(a, Both(b, ()))`, as a pattern and as an expression. Where a struct holds
/// the rest of a long row, `pairs![a; Rest: b]` is `Both(a, Rest(Both(b, ())))`.
#[macro_export]
macro_rules! pairs {
    () => { () };
    ($first:ident) => { $crate::Both($first, ()) };
    ($first:ident, $($rest:tt)*) => { $crate::Both($first, $crate::pairs![$($rest)*]) };
    ($first:ident; $held:ident: $($rest:tt)*) => { $crate::Both($first, $held($crate::pairs![$($rest)*])) };
}

/// References to the fields of a struct as a row has them: `views![self: a, b]` is `Both(&self.a, Both(&self.b, ()))`. Where structs hold
/// the rest of a long row, `views![self: a; Values View: b]` is `Both(&self.a, View(Both(&self.b, ())))`.
#[macro_export]
macro_rules! views {
    ($of:ident:) => { () };
    ($of:ident: $first:ident) => { $crate::Both(&$of.$first, ()) };
    ($of:ident: $first:ident, $($rest:tt)*) => { $crate::Both(&$of.$first, $crate::views![$of: $($rest)*]) };
    ($of:ident: $first:ident; $values:ident $view:ident: $($rest:tt)*) => { $crate::Both(&$of.$first, $view($crate::views![$of: $($rest)*])) };
}

/// The struct of a row's values: `built![T from row: a, b]` is `T { a, b }`, each field by its name. Where structs hold the rest of a long
/// row, `built![T from row: a; Values View: b]` takes it out of `Values`.
#[macro_export]
macro_rules! built {
    ($made:ident from $row:ident: $($name:ident),* $(; $values:ident $view:ident: $($more:ident),*)*) => {{
        let $crate::pairs![$($name),* $(; $values: $($more),*)*] = $row;
        $made { $($name,)* $($($more,)*)* }
    }};
}

/// A table of alternatives: the class and the number of the tag of each.
#[macro_export]
macro_rules! tags {
    ($($class:ident $number:literal),*) => {
        &[$($crate::Tag { class: $crate::Class::$class, value: $number }),*]
    };
}

/// The value of an enum that a row's value is: `from_row!(value => Alternatives: A, B)`.
#[macro_export]
macro_rules! from_row {
    ($value:expr => $choice:ident: ) => {
        match $value {}
    };
    ($value:expr => $choice:ident: $first:ident $(, $more:ident)*) => {
        match $value {
            $crate::Either::First(value) => $choice::$first(value),
            $crate::Either::Rest(rest) => $crate::from_row!(rest => $choice: $($more),*),
        }
    };
}

/// The value of an enum that a value of a row of parts is: `from_parts!(value => Alternatives: FirstPart [At_0 A, At_1 B], LastPart [At_2 C])`
/// takes what each variant of a part holds to a variant of the enum.
#[macro_export]
macro_rules! from_parts {
    ($value:expr => $choice:ident: ) => {
        match $value {}
    };
    ($value:expr => $choice:ident: $part:ident [$($own:ident $name:ident),*] $(, $parts:ident [$($more:tt)*])*) => {
        match $value {
            $crate::Either::First(value) => match value { $($part::$own(held) => $choice::$name(held),)* },
            $crate::Either::Rest(rest) => $crate::from_parts!(rest => $choice: $($parts [$($more)*]),*),
        }
    };
}

/// The view of a reference to an enum, by which its row writes it: `to_row!(self => Alternatives: A, B)`.
#[macro_export]
macro_rules! to_row {
    (@at $value:ident) => {
        $crate::Either::First($value)
    };
    (@at $value:ident Rest $($more:ident)*) => {
        $crate::Either::Rest($crate::to_row!(@at $value $($more)*))
    };
    (@arms $value:tt $choice:ident [$($arms:tt)*] [$($rests:ident)*] ) => {
        match $value { $($arms)* }
    };
    (@arms $value:tt $choice:ident [$($arms:tt)*] [$($rests:ident)*] $first:ident $($more:ident)*) => {
        $crate::to_row!(@arms $value $choice
            [$($arms)* $choice::$first(value) => $crate::to_row!(@at value $($rests)*),]
            [$($rests)* Rest]
            $($more)*)
    };
    ($value:tt => $choice:ident: $($name:ident),*) => {
        $crate::to_row!(@arms $value $choice [] [] $($name)*)
    };
}

/// What a default with parts has for a field: behind `none` nothing, behind `some` the default of an optional component, else that of another.
#[macro_export]
macro_rules! part_value {
    ($alloc:ident; none $of:ty) => { None::<$of> };
    ($alloc:ident; some $default:ty as $of:ty) => { Some(<$default as $crate::DefaultValue<$of>>::value($alloc)?) };
    ($alloc:ident; $default:ty as $of:ty) => { <$default as $crate::DefaultValue<$of>>::value($alloc)? };
}

/// A default with parts: of `parts_value![Sequence T in alloc: a [D as u8], b [none bool]]` the field `a` is the default `D` of a `u8`, and `b` is absent.
#[macro_export]
macro_rules! parts_value {
    ($holder:ident $made:ident in $alloc:ident: $($name:ident [$($default:tt)*]),*) => {
        Ok($holder($made { $($name: $crate::part_value![$alloc; $($default)*]),* }))
    };
}

/// A default that is an alternative: `alternative_value![OneOf T::A in alloc: D as u8]`.
#[macro_export]
macro_rules! alternative_value {
    ($holder:ident $made:ident::$name:ident in $alloc:ident: $($default:tt)*) => {
        Ok($holder($made::$name($crate::part_value![$alloc; $($default)*])))
    };
}

/// Whether a field is what a default with parts has for it.
#[macro_export]
macro_rules! is_part {
    ($part:expr; none $of:ty) => { $part.is_none() };
    ($part:expr; some $default:ty as $of:ty) => {
        matches!(&$part, Some(held) if <$default as $crate::DefaultValue<$of>>::is_value(held))
    };
    ($part:expr; $default:ty as $of:ty) => { <$default as $crate::DefaultValue<$of>>::is_value(&$part) };
}

/// Whether a value is a default with parts, which are written as for `parts_value`: `parts_are![other: a [D as u8], b [none bool]]`.
#[macro_export]
macro_rules! parts_are {
    ($of:ident: $($name:ident [$($default:tt)*]),*) => { true $(&& $crate::is_part![$of.0.$name; $($default)*])* };
}

/// Whether a value is a default that is an alternative: `is_alternative![other: T::A D as u8]`.
#[macro_export]
macro_rules! is_alternative {
    ($of:ident: $made:ident::$name:ident $($default:tt)*) => {
        matches!(&$of.0, $made::$name(held) if $crate::is_part![*held; $($default)*])
    };
}
