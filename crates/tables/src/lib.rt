// The fixed tables: powers of ten, the eight unit kinds and the 256 byte classes.
#![tactic(auto)]

ghost use Rattle.std.specs.Prelude.{◌≡◌, false, ◌<◌, ◌^◌};
ghost use Rattle.rules.specs.SettingsAndUnitTable.{class, kind_multiplier};

use rules::Multiplier;

// The powers of ten that a u64 holds.
const POW10: [u64; 20] = [
    1,
    10,
    100,
    1_000,
    10_000,
    100_000,
    1_000_000,
    10_000_000,
    100_000_000,
    1_000_000_000,
    10_000_000_000,
    100_000_000_000,
    1_000_000_000_000,
    10_000_000_000_000,
    100_000_000_000_000,
    1_000_000_000_000_000,
    10_000_000_000_000_000,
    100_000_000_000_000_000,
    1_000_000_000_000_000_000,
    10_000_000_000_000_000_000,
];

// The coefficient of each unit kind.
const KIND_COEFFICIENTS: [u64; 8] = [1, 1, 1, 1, 60, 3_600, 86_400, 604_800];

// The power of ten of each unit kind, which is never above zero, without its sign.
const KIND_DOWNS: [u16; 8] = [9, 6, 3, 0, 0, 0, 0, 0];

// The numbers of the byte classes.
pub const DIGIT: u8 = 0;

pub const SIGN: u8 = 1;

pub const POINT: u8 = 2;

pub const LETTER: u8 = 3;

pub const OTHER: u8 = 4;

// The class of each byte.
const CLASSES: [u8; 256] = [
    4, // byte 0
    4, // byte 1
    4, // byte 2
    4, // byte 3
    4, // byte 4
    4, // byte 5
    4, // byte 6
    4, // byte 7
    4, // byte 8
    4, // byte 9
    4, // byte 10
    4, // byte 11
    4, // byte 12
    4, // byte 13
    4, // byte 14
    4, // byte 15
    4, // byte 16
    4, // byte 17
    4, // byte 18
    4, // byte 19
    4, // byte 20
    4, // byte 21
    4, // byte 22
    4, // byte 23
    4, // byte 24
    4, // byte 25
    4, // byte 26
    4, // byte 27
    4, // byte 28
    4, // byte 29
    4, // byte 30
    4, // byte 31
    4, // space
    4, // `!`
    4, // `"`
    4, // `#`
    4, // `$`
    4, // `%`
    4, // `&`
    4, // `'`
    4, // `(`
    4, // `)`
    4, // `*`
    1, // `+`
    4, // `,`
    1, // `-`
    2, // `.`
    4, // `/`
    0, // `0`
    0, // `1`
    0, // `2`
    0, // `3`
    0, // `4`
    0, // `5`
    0, // `6`
    0, // `7`
    0, // `8`
    0, // `9`
    4, // `:`
    4, // `;`
    4, // `<`
    4, // `=`
    4, // `>`
    4, // `?`
    4, // `@`
    3, // `A`
    3, // `B`
    3, // `C`
    3, // `D`
    3, // `E`
    3, // `F`
    3, // `G`
    3, // `H`
    3, // `I`
    3, // `J`
    3, // `K`
    3, // `L`
    3, // `M`
    3, // `N`
    3, // `O`
    3, // `P`
    3, // `Q`
    3, // `R`
    3, // `S`
    3, // `T`
    3, // `U`
    3, // `V`
    3, // `W`
    3, // `X`
    3, // `Y`
    3, // `Z`
    4, // `[`
    4, // `\`
    4, // `]`
    4, // `^`
    4, // `_`
    4, // ```
    3, // `a`
    3, // `b`
    3, // `c`
    3, // `d`
    3, // `e`
    3, // `f`
    3, // `g`
    3, // `h`
    3, // `i`
    3, // `j`
    3, // `k`
    3, // `l`
    3, // `m`
    3, // `n`
    3, // `o`
    3, // `p`
    3, // `q`
    3, // `r`
    3, // `s`
    3, // `t`
    3, // `u`
    3, // `v`
    3, // `w`
    3, // `x`
    3, // `y`
    3, // `z`
    4, // `{`
    4, // `|`
    4, // `}`
    4, // `~`
    4, // byte 127
    4, // byte 128
    4, // byte 129
    4, // byte 130
    4, // byte 131
    4, // byte 132
    4, // byte 133
    4, // byte 134
    4, // byte 135
    4, // byte 136
    4, // byte 137
    4, // byte 138
    4, // byte 139
    4, // byte 140
    4, // byte 141
    4, // byte 142
    4, // byte 143
    4, // byte 144
    4, // byte 145
    4, // byte 146
    4, // byte 147
    4, // byte 148
    4, // byte 149
    4, // byte 150
    4, // byte 151
    4, // byte 152
    4, // byte 153
    4, // byte 154
    4, // byte 155
    4, // byte 156
    4, // byte 157
    4, // byte 158
    4, // byte 159
    4, // byte 160
    4, // byte 161
    4, // byte 162
    4, // byte 163
    4, // byte 164
    4, // byte 165
    4, // byte 166
    4, // byte 167
    4, // byte 168
    4, // byte 169
    4, // byte 170
    4, // byte 171
    4, // byte 172
    4, // byte 173
    4, // byte 174
    4, // byte 175
    4, // byte 176
    4, // byte 177
    4, // byte 178
    4, // byte 179
    4, // byte 180
    4, // byte 181
    4, // byte 182
    4, // byte 183
    4, // byte 184
    4, // byte 185
    4, // byte 186
    4, // byte 187
    4, // byte 188
    4, // byte 189
    4, // byte 190
    4, // byte 191
    4, // byte 192
    4, // byte 193
    4, // byte 194
    4, // byte 195
    4, // byte 196
    4, // byte 197
    4, // byte 198
    4, // byte 199
    4, // byte 200
    4, // byte 201
    4, // byte 202
    4, // byte 203
    4, // byte 204
    4, // byte 205
    4, // byte 206
    4, // byte 207
    4, // byte 208
    4, // byte 209
    4, // byte 210
    4, // byte 211
    4, // byte 212
    4, // byte 213
    4, // byte 214
    4, // byte 215
    4, // byte 216
    4, // byte 217
    4, // byte 218
    4, // byte 219
    4, // byte 220
    4, // byte 221
    4, // byte 222
    4, // byte 223
    4, // byte 224
    4, // byte 225
    4, // byte 226
    4, // byte 227
    4, // byte 228
    4, // byte 229
    4, // byte 230
    4, // byte 231
    4, // byte 232
    4, // byte 233
    4, // byte 234
    4, // byte 235
    4, // byte 236
    4, // byte 237
    4, // byte 238
    4, // byte 239
    4, // byte 240
    4, // byte 241
    4, // byte 242
    4, // byte 243
    4, // byte 244
    4, // byte 245
    4, // byte 246
    4, // byte 247
    4, // byte 248
    4, // byte 249
    4, // byte 250
    4, // byte 251
    4, // byte 252
    4, // byte 253
    4, // byte 254
    4, // byte 255
];

// A table is read at fixed indexes alone, an arm of a match for each: read at any index it would be put on the stack first.
pub fn pow10(n: usize) -> u64
    requires { n < 20 }
    ensures { result ≡ 10 ^ n }
{
    match n {
        0 => POW10[0],
        1 => POW10[1],
        2 => POW10[2],
        3 => POW10[3],
        4 => POW10[4],
        5 => POW10[5],
        6 => POW10[6],
        7 => POW10[7],
        8 => POW10[8],
        9 => POW10[9],
        10 => POW10[10],
        11 => POW10[11],
        12 => POW10[12],
        13 => POW10[13],
        14 => POW10[14],
        15 => POW10[15],
        16 => POW10[16],
        17 => POW10[17],
        18 => POW10[18],
        _ => POW10[19],
    }
}

// The bytes of a class stand in runs, of which the first byte's class is that of all.
pub fn class_of(b: u8) -> u8
    ensures { result ≡ class b }
{
    match b {
        b'0'..=b'9' => CLASSES[48],
        b'+' | b'-' => CLASSES[43],
        b'.' => CLASSES[46],
        b'A'..=b'Z' | b'a'..=b'z' => CLASSES[65],
        _ => CLASSES[0],
    }
}

// The multiplier of a kind: its power of ten is never above zero.
fn multiplier(coefficient: u64, down: u16) -> Multiplier
    ensures { result ≡ record { negative = false; coefficient = coefficient; up = 0; down = down } }
{
    Multiplier {
        negative: false,
        coefficient,
        up: 0,
        down,
    }
}

// What a number without a unit, or a row, of this kind is multiplied by; nothing for a kind that there is not.
pub fn kind_multiplier(kind: u8) -> Multiplier
    ensures { result ≡ kind_multiplier kind }
{
    match kind {
        0 => multiplier(KIND_COEFFICIENTS[0], KIND_DOWNS[0]),
        1 => multiplier(KIND_COEFFICIENTS[1], KIND_DOWNS[1]),
        2 => multiplier(KIND_COEFFICIENTS[2], KIND_DOWNS[2]),
        3 => multiplier(KIND_COEFFICIENTS[3], KIND_DOWNS[3]),
        4 => multiplier(KIND_COEFFICIENTS[4], KIND_DOWNS[4]),
        5 => multiplier(KIND_COEFFICIENTS[5], KIND_DOWNS[5]),
        6 => multiplier(KIND_COEFFICIENTS[6], KIND_DOWNS[6]),
        7 => multiplier(KIND_COEFFICIENTS[7], KIND_DOWNS[7]),
        _ => multiplier(0, 0),
    }
}
