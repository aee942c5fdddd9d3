//! The calls by name, in the order in which they are printed.
use crate::call::{
    BitsCall, BuilderCall, Call, ChunksCall, CountCall, CursorCall, ExtendCall, FlagsCall,
    GatherCall, GridCall, ListCall, LoadCall, MaskCall, MergeCall, MinutesCall, OperationCall,
    PairCall, RunEndsCall, SearchCall, SelectCall, SpanCall, StoreCall, SupersedingCall, WordCall,
    ZipCall,
};

/// What a call writes: the bytes o, the numbers i, the ends e and the bytes o, or none of them.
#[derive(Clone, Copy, Debug, PartialEq, Eq)]
pub enum Output {
    Nothing,
    Bytes,
    Numbers,
    EndsAndBytes,
}

/// A call's name, how many arguments it has, and its output.
#[derive(Clone, Copy, Debug)]
pub struct Named {
    pub(crate) name: &'static str,
    pub(crate) arguments: usize,
    pub output: Output,
    pub call: Call,
}

// The number of calls: the length of `NAMES`, and of the rows of a tally, which are in the same order. The two are no single array: the
// table is constant, the rows count. A call is known by its place, so that a row is found without a search and the rows are printed in the
// order of the table, which a map would not keep.
pub(crate) const CALLS: usize = 108;

macro_rules! names {
    ($($name:literal $arguments:literal $output:ident $call:expr;)*) => {
        [$(Named { name: $name, arguments: $arguments, output: Output::$output, call: $call }),*]
    };
}

// For each call its name, how many arguments it has, its output, and the call.
pub(crate) static NAMES: [Named; CALLS] = names![
    "merge_reversed" 3 Nothing Call::Word(WordCall::MergeReversed);
    "nth_set_bit_u32" 2 Nothing Call::Word(WordCall::NthSetBitU32);
    "nth_set_bit_u64" 2 Nothing Call::Word(WordCall::NthSetBitU64);
    "low_flags" 2 Nothing Call::Word(WordCall::LowFlags);
    "shr_or_zero" 2 Nothing Call::Word(WordCall::ShrOrZero);
    "shl_or_zero" 2 Nothing Call::Word(WordCall::ShlOrZero);
    "concat_low" 3 Nothing Call::Word(WordCall::ConcatLow);
    "constant_word" 1 Nothing Call::Word(WordCall::ConstantWord);
    "constant_flags" 2 Nothing Call::Flags(FlagsCall::ConstantFlags);
    "ones_in_word" 1 Nothing Call::Flags(FlagsCall::OnesInWord);
    "ones_below" 2 Nothing Call::Flags(FlagsCall::OnesBelow);
    "none_from" 2 Nothing Call::Flags(FlagsCall::NoneFrom);
    "leading_in_word" 3 Nothing Call::Flags(FlagsCall::LeadingInWord);
    "trailing_in_word" 3 Nothing Call::Flags(FlagsCall::TrailingInWord);
    "combine_word" 4 Nothing Call::Flags(FlagsCall::CombineWord);
    "and_word" 2 Nothing Call::Operation(OperationCall::And);
    "and_not_word" 2 Nothing Call::Operation(OperationCall::AndNot);
    "or_word" 2 Nothing Call::Operation(OperationCall::Or);
    "or_not_word" 2 Nothing Call::Operation(OperationCall::OrNot);
    "xor_word" 2 Nothing Call::Operation(OperationCall::Xor);
    "not_word" 1 Nothing Call::Operation(OperationCall::Not);
    "select_word" 3 Nothing Call::Operation(OperationCall::Select);
    "load_padded_le_u64" 0 Nothing Call::Load(LoadCall::LoadPaddedLeU64);
    "byte_word" 1 Nothing Call::Load(LoadCall::ByteWord);
    "word_from" 1 Nothing Call::Load(LoadCall::WordFrom);
    "flag_at" 1 Nothing Call::Load(LoadCall::FlagAt);
    "count_ones" 2 Nothing Call::Load(LoadCall::CountOnes);
    "equal" 3 Nothing Call::Zip(ZipCall::Equal);
    "count_ones_of" 5 Nothing Call::Zip(ZipCall::CountOnesOf);
    "any_set" 5 Nothing Call::Zip(ZipCall::AnySet);
    "AlignedBitmapSlice::new" 3 Nothing Call::Span(SpanCall::Aligned);
    "split_at_unchecked" 3 Nothing Call::Span(SpanCall::SplitAtUnchecked);
    "get_u32" 3 Nothing Call::Span(SpanCall::GetU32);
    "nth_set_bit_idx" 4 Nothing Call::Span(SpanCall::NthSetBitIdx);
    "nth_set_bit_idx_rev" 4 Nothing Call::Span(SpanCall::NthSetBitIdxRev);
    "count_zeros" 3 Nothing Call::Count(CountCall::CountZeros);
    "leading_zeros" 3 Nothing Call::Count(CountCall::LeadingZeros);
    "leading_ones" 3 Nothing Call::Count(CountCall::LeadingOnes);
    "trailing_zeros" 3 Nothing Call::Count(CountCall::TrailingZeros);
    "trailing_ones" 3 Nothing Call::Count(CountCall::TrailingOnes);
    "BitChunks::new" 2 Nothing Call::Chunks(ChunksCall::New);
    "BitChunksExact::new" 1 Nothing Call::Chunks(ChunksCall::NewExact);
    "BitChunks::next" 3 Nothing Call::Chunks(ChunksCall::Next);
    "remainder" 3 Nothing Call::Chunks(ChunksCall::Remainder);
    "BitmapBuilder::new" 0 Nothing Call::Mask(MaskCall::NewBuilder);
    "Bitmap::new" 0 Nothing Call::Mask(MaskCall::New);
    "try_new" 2 Nothing Call::Mask(MaskCall::TryNew);
    "slice" 5 Nothing Call::Mask(MaskCall::Slice);
    "unset_bits" 3 Nothing Call::Mask(MaskCall::UnsetBits);
    "num_edges" 3 Nothing Call::Mask(MaskCall::NumEdges);
    "eq" 6 Nothing Call::Pair(PairCall::Eq);
    "num_intersections_with" 6 Nothing Call::Pair(PairCall::NumIntersectionsWith);
    "and_not_at" 9 Nothing Call::Pair(PairCall::AndNotAt);
    "may_reassign" 9 Nothing Call::Pair(PairCall::MayReassign);
    "superseding_part" 6 Nothing Call::Superseding(SupersedingCall::Part);
    "superseding" 6 Nothing Call::Superseding(SupersedingCall::Mask);
    "superseding_bytes" 6 Nothing Call::Superseding(SupersedingCall::Bytes);
    "SlicesIterator::new" 3 Nothing Call::Cursor(CursorCall::NewSlices);
    "SlicesIterator::next" 3 Nothing Call::Cursor(CursorCall::NextSlice);
    "TrueIdxIter::new" 5 Nothing Call::Cursor(CursorCall::NewTrueIdx);
    "TrueIdxIter::next" 4 Nothing Call::Cursor(CursorCall::NextTrueIdx);
    "BitmapIter::new" 2 Nothing Call::Bits(BitsCall::New);
    "BitmapIter::next" 3 Nothing Call::Bits(BitsCall::Next);
    "nth" 4 Nothing Call::Bits(BitsCall::Nth);
    "take_leading_ones" 3 Nothing Call::Bits(BitsCall::TakeLeadingOnes);
    "take_leading_zeros" 3 Nothing Call::Bits(BitsCall::TakeLeadingZeros);
    "store_le_u64" 1 Bytes Call::Store(StoreCall::StoreLeU64);
    "store_at" 2 Bytes Call::Store(StoreCall::StoreAt);
    "store_whole" 2 Bytes Call::Store(StoreCall::StoreWhole);
    "copy" 2 Bytes Call::Store(StoreCall::CopySpan);
    "copy_count" 2 Bytes Call::Store(StoreCall::CopyCount);
    "fill" 2 Bytes Call::Store(StoreCall::Fill);
    "fill_whole" 2 Bytes Call::Store(StoreCall::FillWhole);
    "combine" 5 Bytes Call::Combine;
    "push" 4 Bytes Call::Builder(BuilderCall::Push);
    "push_mut" 4 Bytes Call::Builder(BuilderCall::PushMut);
    "push_word_with_len_unchecked" 5 Bytes Call::Builder(BuilderCall::PushWord);
    "extend_constant" 5 Bytes Call::Builder(BuilderCall::ExtendConstant);
    "freeze" 3 Bytes Call::Builder(BuilderCall::Freeze);
    "into_opt_validity" 3 Bytes Call::Builder(BuilderCall::IntoOptValidity);
    "new_zeroed" 1 Bytes Call::NewZeroed;
    "extend_from_slice" 5 Bytes Call::Extend(ExtendCall::FromSlice);
    "extend_each_repeated_from_slice_unchecked" 6 Bytes Call::Extend(ExtendCall::EachRepeated);
    "subslice_extend_from_bitmap" 8 Bytes Call::Extend(ExtendCall::FromBitmap);
    "and" 6 Bytes Call::Merge(MergeCall::And);
    "and_not" 6 Bytes Call::Merge(MergeCall::AndNot);
    "or" 6 Bytes Call::Merge(MergeCall::Or);
    "or_not" 6 Bytes Call::Merge(MergeCall::OrNot);
    "xor" 6 Bytes Call::Merge(MergeCall::Xor);
    "not" 3 Bytes Call::Select(SelectCall::Not);
    "select" 9 Bytes Call::Select(SelectCall::Select);
    "select_constant" 7 Bytes Call::Select(SelectCall::SelectConstant);
    "gather_extend_from_slice" 5 Bytes Call::Gather(GatherCall::FromSlice);
    "opt_gather_extend_from_slice" 5 Bytes Call::Gather(GatherCall::OptFromSlice);
    "next_chunk" 4 Numbers Call::List(ListCall::NextChunk);
    "counts" 3 Numbers Call::List(ListCall::Counts);
    "ActivityWindow::new" 1 Bytes Call::Minutes(MinutesCall::New);
    "push_minute" 4 Bytes Call::Minutes(MinutesCall::PushMinute);
    "push_minutes" 6 Bytes Call::Minutes(MinutesCall::PushMinutes);
    "next_and_not" 8 Nothing Call::Search(SearchCall::NextAndNot);
    "offer" 9 Nothing Call::Search(SearchCall::Offer);
    "grid_row" 6 Nothing Call::Mask(MaskCall::GridRow);
    "grid_column" 6 Bytes Call::Grid(GridCall::GridColumn);
    "grid_transpose" 5 Bytes Call::Grid(GridCall::GridTranspose);
    "grid_row_zeros" 5 Numbers Call::List(ListCall::GridRowZeros);
    "grid_column_zeros" 5 Numbers Call::List(ListCall::GridColumnZeros);
    "from_run_ends" 4 Bytes Call::RunEnds(RunEndsCall::FromRunEnds);
    "to_run_ends" 3 EndsAndBytes Call::RunEnds(RunEndsCall::ToRunEnds);
];

// Returns the name at a place, which a tally's row holds.
pub(crate) fn name(place: usize) -> &'static str {
    NAMES.get(place).map_or("", |named| named.name)
}

// Returns the place of a name. The table is in the order of printing, not of the names, so it is searched from its front.
pub(crate) fn place(name: &[u8]) -> Option<usize> {
    NAMES
        .iter()
        .position(|named| is_named(name, named.name.as_bytes()))
}

// Returns whether a text names a call: it is the name, or goes on after it for 1,000 bytes or a multiple of them.
fn is_named(text: &[u8], name: &[u8]) -> bool {
    text.len() % 1000 == name.len() && text.starts_with(name)
}
