//! Queries whose codes have costs, which several rows share.

const PAIR: &str = "SELECT a.id FROM a, b WHERE a.id = b.id";

const BOUNDED: &str = "SELECT a.id FROM a, b WHERE a.id = b.id AND a.id < 11 AND b.id < 11";

const SALES: &str = "SELECT deal.id FROM deal, region WHERE deal.region = region.id";

const EIGHT: &str = "SELECT t1.id FROM x t1, x t2, x t3, x t4, x t5, x t6, x t7, x t8";

const EMPTY_LAST: &str = "SELECT t1.id FROM x t1, x t2, x t3, x t4, x t5, x t6, x t7, bare t8";

const EMPTY_FIRST: &str = "SELECT t1.id FROM bare t1, x t2, x t3, x t4, x t5, x t6, x t7, x t8";

const CHAIN: &str = "SELECT t1.id FROM x t1, x t2, x t3, x t4, x t5, x t6, x t7, x t8
    WHERE t1.id = t2.id AND t2.id = t3.id AND t3.id = t4.id AND t4.id = t5.id
    AND t5.id = t6.id AND t6.id = t7.id AND t7.id = t8.id";

const STAR: &str = "SELECT t1.id FROM x t1, x t2, x t3, x t4, x t5, x t6, x t7, x t8
    WHERE t1.id = t2.id AND t1.id = t3.id AND t1.id = t4.id AND t1.id = t5.id
    AND t1.id = t6.id AND t1.id = t7.id AND t1.id = t8.id";

const CLIQUE: &str = "SELECT t1.id FROM x t1, x t2, x t3, x t4, x t5, x t6, x t7, x t8
    WHERE t1.id = t2.id AND t1.id = t3.id AND t1.id = t4.id AND t1.id = t5.id
    AND t1.id = t6.id AND t1.id = t7.id AND t1.id = t8.id
    AND t2.id = t3.id AND t2.id = t4.id AND t2.id = t5.id AND t2.id = t6.id
    AND t2.id = t7.id AND t2.id = t8.id
    AND t3.id = t4.id AND t3.id = t5.id AND t3.id = t6.id AND t3.id = t7.id AND t3.id = t8.id
    AND t4.id = t5.id AND t4.id = t6.id AND t4.id = t7.id AND t4.id = t8.id
    AND t5.id = t6.id AND t5.id = t7.id AND t5.id = t8.id
    AND t6.id = t7.id AND t6.id = t8.id AND t7.id = t8.id";

/// The query of that name, or the text itself.
pub fn query_text(text: &str) -> &str {
    match text {
        "PAIR" => PAIR,
        "BOUNDED" => BOUNDED,
        "SALES" => SALES,
        "EIGHT" => EIGHT,
        "EMPTY_LAST" => EMPTY_LAST,
        "EMPTY_FIRST" => EMPTY_FIRST,
        "CHAIN" => CHAIN,
        "STAR" => STAR,
        "CLIQUE" => CLIQUE,
        _ => text,
    }
}
