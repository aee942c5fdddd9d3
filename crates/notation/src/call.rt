//! The calls, in groups to which the same is lent.

/// A call, by its group.
#[derive(Clone, Copy, Debug, PartialEq, Eq)]
pub enum Call {
    Word(WordCall),
    Flags(FlagsCall),
    Operation(OperationCall),
    Load(LoadCall),
    Zip(ZipCall),
    Span(SpanCall),
    Count(CountCall),
    Chunks(ChunksCall),
    Mask(MaskCall),
    Pair(PairCall),
    Superseding(SupersedingCall),
    Cursor(CursorCall),
    Bits(BitsCall),
    Store(StoreCall),
    Combine,
    Builder(BuilderCall),
    NewZeroed,
    Extend(ExtendCall),
    Merge(MergeCall),
    Select(SelectCall),
    Gather(GatherCall),
    List(ListCall),
    Minutes(MinutesCall),
    Search(SearchCall),
    Grid(GridCall),
    RunEnds(RunEndsCall),
}

/// Calls on words only.
#[derive(Clone, Copy, Debug, PartialEq, Eq)]
pub enum WordCall {
    MergeReversed,
    NthSetBitU32,
    NthSetBitU64,
    LowFlags,
    ShrOrZero,
    ShlOrZero,
    ConcatLow,
    ConstantWord,
}

/// Further calls on words only: those of flags and of how many they are, and `combine_word`.
#[derive(Clone, Copy, Debug, PartialEq, Eq)]
pub enum FlagsCall {
    ConstantFlags,
    OnesInWord,
    OnesBelow,
    NoneFrom,
    LeadingInWord,
    TrailingInWord,
    CombineWord,
}

/// The operations on words.
#[derive(Clone, Copy, Debug, PartialEq, Eq)]
pub enum OperationCall {
    And,
    AndNot,
    Or,
    OrNot,
    Xor,
    Not,
    Select,
}

/// Calls of words that read x.
#[derive(Clone, Copy, Debug, PartialEq, Eq)]
pub enum LoadCall {
    LoadPaddedLeU64,
    ByteWord,
    WordFrom,
    FlagAt,
    CountOnes,
}

/// Calls of words that read x, y and z.
#[derive(Clone, Copy, Debug, PartialEq, Eq)]
pub enum ZipCall {
    Equal,
    CountOnesOf,
    AnySet,
}

/// Calls on a span of x.
#[derive(Clone, Copy, Debug, PartialEq, Eq)]
pub enum SpanCall {
    Aligned,
    SplitAtUnchecked,
    GetU32,
    NthSetBitIdx,
    NthSetBitIdxRev,
}

/// Counts of a span of x.
#[derive(Clone, Copy, Debug, PartialEq, Eq)]
pub enum CountCall {
    CountZeros,
    LeadingZeros,
    LeadingOnes,
    TrailingZeros,
    TrailingOnes,
}

/// The chunks of x.
#[derive(Clone, Copy, Debug, PartialEq, Eq)]
pub enum ChunksCall {
    New,
    NewExact,
    Next,
    Remainder,
}

/// Calls that make a builder or a mask, and calls on one mask over x.
#[derive(Clone, Copy, Debug, PartialEq, Eq)]
pub enum MaskCall {
    NewBuilder,
    New,
    TryNew,
    Slice,
    UnsetBits,
    NumEdges,
    GridRow,
}

/// Calls on two masks, over x and y, that write nothing.
#[derive(Clone, Copy, Debug, PartialEq, Eq)]
pub enum PairCall {
    Eq,
    NumIntersectionsWith,
    AndNotAt,
    MayReassign,
}

/// Which of two masks supersedes the other.
#[derive(Clone, Copy, Debug, PartialEq, Eq)]
pub enum SupersedingCall {
    Part,
    Mask,
    Bytes,
}

/// Calls of the cursors over a mask's runs and over its ones.
#[derive(Clone, Copy, Debug, PartialEq, Eq)]
pub enum CursorCall {
    NewSlices,
    NextSlice,
    NewTrueIdx,
    NextTrueIdx,
}

/// Calls of the cursor over flags.
#[derive(Clone, Copy, Debug, PartialEq, Eq)]
pub enum BitsCall {
    New,
    Next,
    Nth,
    TakeLeadingOnes,
    TakeLeadingZeros,
}

/// Calls of words that write o.
#[derive(Clone, Copy, Debug, PartialEq, Eq)]
pub enum StoreCall {
    StoreLeU64,
    StoreAt,
    StoreWhole,
    CopySpan,
    CopyCount,
    Fill,
    FillWhole,
}

/// Calls of the builder, whose buffer is o, that read nothing else.
#[derive(Clone, Copy, Debug, PartialEq, Eq)]
pub enum BuilderCall {
    Push,
    PushMut,
    PushWord,
    ExtendConstant,
    Freeze,
    IntoOptValidity,
}

/// Appends that read x.
#[derive(Clone, Copy, Debug, PartialEq, Eq)]
pub enum ExtendCall {
    FromSlice,
    EachRepeated,
    FromBitmap,
}

/// Combinations of two masks.
#[derive(Clone, Copy, Debug, PartialEq, Eq)]
pub enum MergeCall {
    And,
    AndNot,
    Or,
    OrNot,
    Xor,
}

/// The combinations of one mask, and those by a selector.
#[derive(Clone, Copy, Debug, PartialEq, Eq)]
pub enum SelectCall {
    Not,
    Select,
    SelectConstant,
}

/// Appends that read x at the indices i.
#[derive(Clone, Copy, Debug, PartialEq, Eq)]
pub enum GatherCall {
    FromSlice,
    OptFromSlice,
}

/// Calls that write i.
#[derive(Clone, Copy, Debug, PartialEq, Eq)]
pub enum ListCall {
    NextChunk,
    Counts,
    GridRowZeros,
    GridColumnZeros,
}

/// Calls that write a window of minutes, whose arrays are o.
#[derive(Clone, Copy, Debug, PartialEq, Eq)]
pub enum MinutesCall {
    New,
    PushMinute,
    PushMinutes,
}

/// Searches over two masks.
#[derive(Clone, Copy, Debug, PartialEq, Eq)]
pub enum SearchCall {
    NextAndNot,
    Offer,
}

/// Calls on a grid of one mask that write o.
#[derive(Clone, Copy, Debug, PartialEq, Eq)]
pub enum GridCall {
    GridColumn,
    GridTranspose,
}

/// Calls on run ends.
#[derive(Clone, Copy, Debug, PartialEq, Eq)]
pub enum RunEndsCall {
    FromRunEnds,
    ToRunEnds,
}
