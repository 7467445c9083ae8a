//! Sinks, which accept the printed text one piece at a time.
pub use demangle_sink::{ArraySink, SinkRefused, SliceSink, TextSink, WriteSink};
