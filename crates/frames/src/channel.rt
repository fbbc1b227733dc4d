// What sender and reader agree on beside the line-up.

// The codes of the MIS and of the TIS and the constellations of the three streams, chosen apart. The data code is the line-up's.
#[derive(Clone, Copy, Default)]
pub struct Channel<M, T, A, B, C> {
    pub mis: M,
    pub tis: T,
    pub mis_points: A,
    pub tis_points: B,
    pub data_points: C,
}
