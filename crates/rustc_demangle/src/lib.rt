//! Demangles Rust symbols.
#![tactic(auto)]

mod byte_before;
mod runs;
pub mod sink;
mod slice;
mod stream;
mod text;

pub use byte_before::plain_len;
pub use demangle_symbol::cursor::{Looks, RunLooks};
pub use demangle_symbol::form::Form;
pub use demangle_value::format::{Format, RereadLimit, SizeLimit};
pub use demangle_value::value::Demangle;
pub use demangle_value::value::printing::write_with_path_len;
pub use demangle_value::{
    TryDemangleError, demangle, demangle_counted, try_demangle, try_demangle_counted,
};
pub use runs::{run_len, run_start, stays};
pub use slice::{demangle_slice, demangle_slice_counted, demangle_slice_formatted};
pub use stream::{
    BytesFilter, StreamFault, SymbolMemo, demangle_bytes, demangle_bytes_counted,
    demangle_bytes_formatted, demangle_bytes_limited, demangle_stream, demangle_stream_named,
};
pub use text::{demangle_text, demangle_text_formatted, demangle_text_limited};
