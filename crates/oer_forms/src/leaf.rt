//! Readers of leaves over slices, and writers of leaves behind what a buffer holds (X.696).

pub use oer_leaf_read::{
    BitSlice, read_any, read_bit_string, read_bitmap, read_bool, read_content, read_enumerated,
    read_integer, read_length, read_named_bits, read_number_content, read_object_identifier,
    read_octet, read_octet_string, read_octets, read_preamble, read_quantity, read_tag, read_text,
    read_time, read_utf8, require_canonical, skip_additions,
};
pub use oer_leaf_write::{
    write_any, write_bit_string, write_bitmap, write_bool, write_content, write_enumerated,
    write_integer, write_length, write_named_bits, write_object_identifier, write_octet_string,
    write_preamble, write_quantity, write_tag, write_text, write_time, write_utf8,
};
pub use oer_spec::leaf::{
    IntegerWidth, TimeType, is_in_range, least_size, octets_for, unused_for, width_of,
};
