//! The rows of 32-bit codes that branch.

ghost use Rattle.std.specs.Prelude.{◌≢◌};

use crate::fields::{Below, Bit, Register};

/// `b.w label` under condition `c`, as `beq.w label`. The distance in bytes from the address plus 4 is `s:j2:j1:i6:i11:0`, with sign
/// `s`. T16: DDI0553, "B", encoding T3.
#[derive(Clone, Copy)]
pub struct WideConditional {
    pub s: Bit,
    pub c: Below<14>,
    pub i6: Below<64>,
    pub j1: Bit,
    pub j2: Bit,
    pub i11: Below<2048>,
}

/// The operation of a branch with no condition of the row T16, `b.w` or `bl`: DDI0553, "B" and "BL".
#[derive(Clone, Copy)]
pub enum WideBranchName {
    /// `b.w`
    B,
    /// `bl`
    Bl,
}

/// `b.w label`, `bl label`. The distance in bytes from the address plus 4 is `s:I1:I2:i10:i11:0`, with sign `s`, where I1 and
/// I2 are `s`, turned over where `j1` and `j2` are 0. T16: DDI0553, "B", encoding T4, and "BL", encoding T1.
#[derive(Clone, Copy)]
pub struct WideAlways {
    pub name: WideBranchName,
    pub s: Bit,
    pub i10: Below<1024>,
    pub j1: Bit,
    pub j2: Bit,
    pub i11: Below<2048>,
}

/// A wide branch with a condition or with none, `b.w` or `bl`: DDI0553, "B", encodings T3 and T4, and "BL", encoding T1.
#[derive(Clone, Copy)]
pub enum T16 {
    Conditional(WideConditional),
    Always(WideAlways),
}

/// The operation of the row T17, `tbb` or `tbh`: DDI0553, "TBB, TBH".
#[derive(Clone, Copy)]
pub enum TableName {
    /// `tbb`
    Tbb,
    /// `tbh`
    Tbh,
}

/// `tbb [rn,rm]`, `tbh [rn,rm,lsl #1]`, a branch forward by twice a number of a table: DDI0553, "TBB, TBH", encodings T1.
#[derive(Clone, Copy)]
pub struct T17 {
    pub name: TableName,
    pub n: Register,
    pub m: Register,
    pub ghost table_not_sp: { n.value ≢ 13 },
    pub ghost not_sp: { m.value ≢ 13 },
    pub ghost not_pc: { m.value ≢ 15 },
}

/// `dls lr,rn`. T23: DDI0553, "WLS, DLS, WLSTP, DLSTP".
#[derive(Clone, Copy)]
pub struct Dls {
    pub n: Register,
    pub ghost not_sp: { n.value ≢ 13 },
    pub ghost not_pc: { n.value ≢ 15 },
}

/// `wls lr,rn,label`, forward by 2v from the address plus 4. T23: DDI0553, "WLS, DLS, WLSTP, DLSTP".
#[derive(Clone, Copy)]
pub struct Wls {
    pub n: Register,
    pub v: Below<2048>,
    pub ghost not_sp: { n.value ≢ 13 },
    pub ghost not_pc: { n.value ≢ 15 },
}

/// `dlstp.8`, `dlstp.16`, `dlstp.32`, `dlstp.64 lr,rn`, for elements of 8, 16, 32 and 64 bits as `z` is 0 to 3. T23: DDI0553, "WLS, DLS, WLSTP, DLSTP".
#[derive(Clone, Copy)]
pub struct Dlstp {
    pub z: Below<4>,
    pub n: Register,
    pub ghost not_sp: { n.value ≢ 13 },
    pub ghost not_pc: { n.value ≢ 15 },
}

/// `wlstp.8`, `wlstp.16`, `wlstp.32`, `wlstp.64 lr,rn,label`, forward by 2v from the address plus 4. T23: DDI0553, "WLS, DLS, WLSTP, DLSTP".
#[derive(Clone, Copy)]
pub struct Wlstp {
    pub z: Below<4>,
    pub n: Register,
    pub v: Below<2048>,
    pub ghost not_sp: { n.value ≢ 13 },
    pub ghost not_pc: { n.value ≢ 15 },
}

/// The operation of the row T23 at the end of a loop, `le` with lr, `letp` or `le`: DDI0553, "LE, LETP".
#[derive(Clone, Copy)]
pub enum LoopEndName {
    /// `le lr,label`
    LeLr,
    /// `letp lr,label`
    Letp,
    /// `le label`
    Le,
}

/// `le lr,label`, `letp lr,label` and `le label`, backward by 2v from the address plus 4. T23: DDI0553, "LE, LETP".
#[derive(Clone, Copy)]
pub struct LoopEnd {
    pub name: LoopEndName,
    pub v: Below<2048>,
}

/// Low-overhead loops, `dls`, `wls`, `dlstp`, `wlstp`, `le`, `letp` and `lctp`: DDI0553, "WLS, DLS, WLSTP, DLSTP", "LE, LETP" and "LCTP".
#[derive(Clone, Copy)]
pub enum T23 {
    Dls(Dls),
    Wls(Wls),
    Dlstp(Dlstp),
    Wlstp(Wlstp),
    End(LoopEnd),
    /// `lctp`
    Lctp,
}
