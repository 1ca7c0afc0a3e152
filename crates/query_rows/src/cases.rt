//! Graphs of a few commits, and expressions with the names of their members. In a text `@05` stands for the name of 38 zeros and 05,
//! `<` for fifteen times `union(all,` and `>` for as many brackets that close these: `<all>` has 31 nodes and is 16 deep.
//! The answers are those of `tests/plain_store.py`.

/// A graph, how its commits are stored, and what expressions over it mean.
#[derive(Clone, Copy)]
pub struct Graph {
    /// The parents of each commit, where a commit's name is its place and one more.
    pub parents: &'static [&'static [u8]],
    /// So many in front are of the master group.
    pub masters: usize,
    /// So many behind them are stored among the others. The rest is pending.
    pub stored: usize,
    /// Expressions, and their members from the greatest id down.
    pub cases: &'static [(&'static str, &'static [u8])],
}

/// The commit 2 on 1, 3 and 4 on 2, 5 on 4, and 6 a merge of 3 and 5.
const DAY: [&[u8]; 6] = [&[], &[1], &[2], &[2], &[4], &[3, 5]];

const DAY_CASES: [(&str, &[u8]); 65] = [
    ("all", &[6, 5, 4, 3, 2, 1]),
    ("master", &[6, 5, 4, 3, 2, 1]),
    ("others", &[]),
    ("@04", &[4]),
    ("parents(@06)", &[5, 3]),
    ("parents(@01)", &[]),
    ("children(@02)", &[4, 3]),
    ("ancestors(@04)", &[4, 2, 1]),
    ("descendants(@03)", &[6, 3]),
    ("line(@06)", &[6, 3, 2, 1]),
    ("line(union(@05,@03))", &[5, 4, 3, 2, 1]),
    ("line(minus(all,all))", &[]),
    ("ancestors(union(@03,@04))", &[4, 3, 2, 1]),
    ("descendants(union(@05,@03))", &[6, 5, 3]),
    ("heads(all)", &[6]),
    ("heads(union(@02,@06))", &[6, 2]),
    ("tips(union(@02,@06))", &[6]),
    ("roots(union(@04,@05))", &[4]),
    ("roots(all)", &[1]),
    ("merges(all)", &[6]),
    ("merges(ancestors(@05))", &[]),
    ("common(union(@03,@05))", &[2, 1]),
    ("common(@03)", &[3, 2, 1]),
    ("common(minus(all,all))", &[]),
    ("gca(union(@03,@05))", &[2]),
    ("gca(union(@05,@03))", &[2]),
    ("gca(@06)", &[6]),
    ("range(@02,@05)", &[5, 4, 2]),
    ("range(@05,@02)", &[]),
    ("range(@03,@05)", &[]),
    ("only(@06,@03)", &[6, 5, 4]),
    ("only(@03,@06)", &[]),
    ("only(@05,@03)", &[5, 4]),
    ("union(@03,@05)", &[5, 3]),
    ("inter(ancestors(@03),ancestors(@05))", &[2, 1]),
    ("inter(@02,ancestors(@05))", &[2]),
    ("inter(@03,ancestors(@05))", &[]),
    ("inter(ancestors(@05),@02)", &[2]),
    ("inter(ancestors(@05),@03)", &[]),
    ("inter(union(@01,@03),ancestors(union(@04,@05)))", &[1]),
    ("minus(union(@02,@03),ancestors(@05))", &[3]),
    ("minus(@02,ancestors(@05))", &[]),
    ("minus(ancestors(@05),@02)", &[5, 4, 1]),
    ("inter(minus(all,all),ancestors(@06))", &[]),
    ("minus(minus(all,all),ancestors(@06))", &[]),
    ("inter(@06,ancestors(minus(all,all)))", &[]),
    ("inter(all,ancestors(@04))", &[4, 2, 1]),
    ("inter(ancestors(@04),all)", &[4, 2, 1]),
    ("inter(inter(@02,ancestors(@04)),ancestors(@03))", &[2]),
    (
        "inter(parents(ancestors(@03)),ancestors(heads(all)))",
        &[2, 1],
    ),
    ("up(@06,0)", &[6]),
    ("up(@06,1)", &[3]),
    ("up(@06,2)", &[2]),
    ("up(@06,3)", &[1]),
    ("up(@06,4)", &[]),
    ("up(@05,18446744073709551615)", &[]),
    ("top(all,0)", &[]),
    ("top(all,2)", &[6, 5]),
    ("top(ancestors(@05),2)", &[5, 4]),
    ("top(all,9)", &[6, 5, 4, 3, 2, 1]),
    ("top(children(@02),1)", &[4]),
    ("minus(all,ancestors(@05))", &[6, 3]),
    ("inter(master,ancestors(@05))", &[5, 4, 2, 1]),
    ("children(parents(@06))", &[6]),
    ("parents(children(@02))", &[2]),
];

/// Expressions over the day that are 31 and 32 deep, and of 255 and 256 nodes.
const LARGE_CASES: [(&str, &[u8]); 4] = [
    ("<<all>>", &[6, 5, 4, 3, 2, 1]),
    ("union(all,<<all>>)", &[6, 5, 4, 3, 2, 1]),
    (
        "union(union(union(<all>,<all>),union(<all>,<all>)),union(union(<all>,<all>),union(<all>,<all>)))",
        &[6, 5, 4, 3, 2, 1],
    ),
    (
        "tips(union(union(union(<all>,<all>),union(<all>,<all>)),union(union(<all>,<all>),union(<all>,<all>))))",
        &[6],
    ),
];

/// Texts that are 33 deep, and of 257 nodes: no expressions.
pub const TOO_LARGE: [&str; 2] = [
    "union(all,union(all,<<all>>))",
    "union(all,union(union(union(<all>,<all>),union(<all>,<all>)),union(union(<all>,<all>),union(<all>,<all>))))",
];

/// Two merges of the same two commits, in both orders.
const CROSSED: [&[u8]; 5] = [&[], &[1], &[1], &[2, 3], &[3, 2]];

const CROSSED_CASES: [(&str, &[u8]); 19] = [
    ("gca(union(@04,@05))", &[3, 2]),
    ("common(union(@04,@05))", &[3, 2, 1]),
    ("common(union(union(@02,@03),@04))", &[1]),
    ("heads(common(all))", &[1]),
    ("tips(all)", &[5, 4]),
    ("heads(all)", &[5, 4]),
    ("up(@04,1)", &[2]),
    ("up(@05,1)", &[3]),
    ("line(@04)", &[4, 2, 1]),
    ("line(@05)", &[5, 3, 1]),
    ("minus(ancestors(@05),line(@05))", &[2]),
    ("merges(all)", &[5, 4]),
    ("only(@04,@05)", &[4]),
    ("range(@02,union(@04,@05))", &[5, 4, 2]),
    ("inter(union(@04,@05),ancestors(@05))", &[5]),
    ("inter(union(@02,@03),ancestors(@05))", &[3, 2]),
    ("roots(minus(all,@01))", &[3, 2]),
    ("top(tips(all),1)", &[5]),
    ("descendants(@03)", &[5, 4, 3]),
];

/// Two histories without a common commit, of which the second stands among the others: 5 without parents, 6 on it, 7 a merge of 6 with 4, and 8 on 6.
const SPLIT: [&[u8]; 8] = [&[], &[1], &[2], &[2], &[], &[5], &[6, 4], &[6]];

const SPLIT_CASES: [(&str, &[u8]); 39] = [
    ("all", &[8, 7, 6, 5, 4, 3, 2, 1]),
    ("master", &[4, 3, 2, 1]),
    ("others", &[8, 7, 6, 5]),
    ("parents(others)", &[6, 5, 4]),
    ("children(master)", &[7, 4, 3, 2]),
    ("ancestors(others)", &[8, 7, 6, 5, 4, 2, 1]),
    ("descendants(master)", &[7, 4, 3, 2, 1]),
    ("line(@07)", &[7, 6, 5]),
    ("line(others)", &[8, 7, 6, 5]),
    ("heads(master)", &[4, 3]),
    ("heads(all)", &[8, 7, 3]),
    ("tips(all)", &[8, 7, 3]),
    ("roots(others)", &[5]),
    ("roots(all)", &[5, 1]),
    ("merges(others)", &[7]),
    ("common(union(@03,@06))", &[]),
    ("gca(union(@07,@04))", &[4]),
    ("gca(union(@07,@08))", &[6]),
    ("gca(union(@08,@04))", &[]),
    ("range(@01,@07)", &[7, 4, 2, 1]),
    ("range(union(@02,@05),@07)", &[7, 6, 5, 4, 2]),
    ("only(@07,master)", &[7, 6, 5]),
    ("only(others,@04)", &[8, 7, 6, 5]),
    ("minus(others,ancestors(@08))", &[7]),
    ("inter(master,ancestors(@07))", &[4, 2, 1]),
    ("inter(ancestors(@07),master)", &[4, 2, 1]),
    ("inter(others,ancestors(@04))", &[]),
    ("inter(@05,ancestors(@08))", &[5]),
    ("inter(ancestors(@08),@02)", &[]),
    ("inter(union(@02,@05),ancestors(@07))", &[5, 2]),
    ("minus(all,ancestors(@07))", &[8, 3]),
    ("up(@07,2)", &[5]),
    ("up(@08,2)", &[5]),
    ("up(@08,3)", &[]),
    ("top(all,3)", &[8, 7, 6]),
    ("top(master,1)", &[4]),
    ("top(others,1)", &[8]),
    ("children(@06)", &[8, 7]),
    ("descendants(@05)", &[8, 7, 6, 5]),
];

/// Each commit from the third on is a merge of the two before it.
const LADDER: [&[u8]; 40] = [
    &[],
    &[1],
    &[2, 1],
    &[3, 2],
    &[4, 3],
    &[5, 4],
    &[6, 5],
    &[7, 6],
    &[8, 7],
    &[9, 8],
    &[10, 9],
    &[11, 10],
    &[12, 11],
    &[13, 12],
    &[14, 13],
    &[15, 14],
    &[16, 15],
    &[17, 16],
    &[18, 17],
    &[19, 18],
    &[20, 19],
    &[21, 20],
    &[22, 21],
    &[23, 22],
    &[24, 23],
    &[25, 24],
    &[26, 25],
    &[27, 26],
    &[28, 27],
    &[29, 28],
    &[30, 29],
    &[31, 30],
    &[32, 31],
    &[33, 32],
    &[34, 33],
    &[35, 34],
    &[36, 35],
    &[37, 36],
    &[38, 37],
    &[39, 38],
];

const LADDER_CASES: [(&str, &[u8]); 21] = [
    ("parents(@28)", &[39, 38]),
    ("children(@01)", &[3, 2]),
    ("ancestors(@03)", &[3, 2, 1]),
    ("descendants(@27)", &[40, 39]),
    ("heads(all)", &[40]),
    ("tips(union(@10,@25))", &[37]),
    ("roots(all)", &[1]),
    ("merges(ancestors(@04))", &[4, 3]),
    ("gca(union(@10,@25))", &[16]),
    ("range(@08,@0b)", &[11, 10, 9, 8]),
    ("only(@28,@24)", &[40, 39, 38, 37]),
    ("inter(@05,ancestors(@28))", &[5]),
    ("inter(ancestors(@28),@05)", &[5]),
    ("inter(union(@21,@03),ancestors(@20))", &[3]),
    ("minus(union(@21,@03),ancestors(@20))", &[33]),
    (
        "inter(range(@05,@09),ancestors(up(@28,30)))",
        &[9, 8, 7, 6, 5],
    ),
    ("up(@28,38)", &[2]),
    ("up(@28,40)", &[]),
    ("top(common(union(@10,@25)),3)", &[16, 15, 14]),
    ("top(parents(all),2)", &[39, 38]),
    ("minus(all,ancestors(@26))", &[40, 39]),
];

/// Merges of three commits, one of them of two that lead to one another.
const WIDE: [&[u8]; 8] = [&[], &[], &[], &[1, 2, 3], &[1], &[5, 4, 1], &[2], &[6, 7]];

const WIDE_CASES: [(&str, &[u8]); 16] = [
    ("parents(@04)", &[3, 2, 1]),
    ("merges(all)", &[8, 6, 4]),
    ("heads(minus(all,@08))", &[7, 6]),
    ("gca(union(@04,@06))", &[4]),
    ("common(union(@06,@08))", &[6, 5, 4, 3, 2, 1]),
    ("up(@06,2)", &[1]),
    ("up(@08,3)", &[1]),
    ("roots(all)", &[3, 2, 1]),
    ("only(@06,@05)", &[6, 4, 3, 2]),
    ("range(@01,@06)", &[6, 5, 4, 1]),
    ("gca(union(@05,@07))", &[]),
    ("inter(union(@03,@07),ancestors(@06))", &[3]),
    ("inter(roots(all),ancestors(@05))", &[1]),
    ("tips(ancestors(@06))", &[6]),
    ("top(roots(all),2)", &[3, 2]),
    ("children(union(@01,@02))", &[7, 6, 5, 4]),
];

/// All graphs.
pub const GRAPHS: [Graph; 6] = [
    Graph {
        parents: &DAY,
        masters: 6,
        stored: 0,
        cases: &DAY_CASES,
    },
    Graph {
        parents: &DAY,
        masters: 6,
        stored: 0,
        cases: &LARGE_CASES,
    },
    Graph {
        parents: &CROSSED,
        masters: 5,
        stored: 0,
        cases: &CROSSED_CASES,
    },
    Graph {
        parents: &SPLIT,
        masters: 4,
        stored: 2,
        cases: &SPLIT_CASES,
    },
    Graph {
        parents: &LADDER,
        masters: 40,
        stored: 0,
        cases: &LADDER_CASES,
    },
    Graph {
        parents: &WIDE,
        masters: 8,
        stored: 0,
        cases: &WIDE_CASES,
    },
];
