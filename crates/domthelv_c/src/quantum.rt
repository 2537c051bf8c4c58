// SAFT-VRQ Mie at the C boundary: parameters, table, a pair's searches and diameter, energies, the stage.
ghost use Rattle.std.specs.Prelude.{◌≡◌};
ghost use Rattle.mie_parameters.specs.Answer.{status, stored};
ghost use Rattle.set_lists.specs.Sets.{QuantumLists};
ghost use Rattle.set_lists.specs.Written.{QuantumLent};
ghost use Rattle.domthelv.specs.Operations.{order_counts_out, vrq_parameters, vrq_table, vrq_radii, vrq_energies, vrq_diameter, vrq_stage};
ghost use Rattle.domthelv.specs.Total.{vrq_total};
ghost use Rattle.saftvrqmie_parameters.specs.Parameters as Quantum;
ghost use Rattle.saftvrqmie.specs.Table.{Lent};

// `SaftVRQMieRecord::new`: 3 if m is not 1.
#[unsafe(no_mangle)]
pub extern "C" fn domthelv_vrq_record_m(m: f64) -> u8
    ensures { result ≡ status (Quantum.record_m m) }
{
    domthelv::domthelv_vrq_record_m(m)
}

// Of all lists of orders 0 to 3, one for each component: how many pass the order walk, meet 4, meet 5. 1 for `out`, then for the count.
#[unsafe(no_mangle)]
pub extern "C" fn domthelv_order_counts(count: usize, out: &mut [u64]) -> u8
    ensures { let q = order_counts_out count out.old in
        (result ≡ status q) × (out.new ≡ stored out.old q) }
{
    domthelv::domthelv_order_counts(count, out)
}

// Quantum parameters. 1, 2, 3, 4 or 5, 6.
#[unsafe(no_mangle)]
pub extern "C" fn domthelv_vrq_parameters(
    count: usize,
    m: &[f64],
    sigma: &[f64],
    epsilon_k: &[f64],
    lr: &[f64],
    la: &[f64],
    mass: &[f64],
    order: &[u8],
    k_ij: &[f64],
    l_ij: &[f64],
    set_m: &mut [f64],
    set_sheets: &mut [f64],
    set_orders: &mut [u8],
) -> u8
    ensures { let x : Quantum.Lists =
        record {
          count = count;
          m = m.entry.now;
          sigma = sigma.now;
          epsilon_k = epsilon_k.now;
          lr = lr.now;
          la = la.now;
          mass = mass.now;
          fh = order.now;
          k_ij = k_ij.now;
          l_ij = l_ij.now;
        } in
        let l : QuantumLent = record { m = set_m.old; sheets = set_sheets.old; orders = set_orders.old } in
        let q = vrq_parameters x l in
        (result ≡ status q) × (set_m.new ≡ (stored l q).m) × (set_sheets.new ≡ (stored l q).sheets) × (set_orders.new ≡ (stored l q).orders) }
{
    domthelv::domthelv_vrq_parameters(
        count, m, sigma, epsilon_k, lr, la, mass, order, k_ij, l_ij, set_m, set_sheets, set_orders,
    )
}

// Temperature table and counts. 1, 4, then 2, 6, 7.
#[unsafe(no_mangle)]
pub extern "C" fn domthelv_vrq_table(
    count: usize,
    m: &[f64],
    sheets: &[f64],
    orders: &[u8],
    temperature: f64,
    table: &mut [f64],
    counts: &mut [u8],
) -> u8
    ensures { let s : QuantumLists = record { count = count; m = m.now; sheets = sheets.now; orders = orders.now } in
        let l : Lent = record { values = table.old; numbers = counts.old } in
        let q = vrq_table s temperature l in
        (result ≡ status q) × (table.new ≡ (stored l q).values) × (counts.new ≡ (stored l q).numbers) }
{
    domthelv::domthelv_vrq_table(count, m, sheets, orders, temperature, table, counts)
}

// One pair's three searches: radius and last potential of sigma, zero, depth; their counts. 1, 4, then 2, 6.
#[unsafe(no_mangle)]
pub extern "C" fn domthelv_vrq_radii(
    count: usize,
    m: &[f64],
    sheets: &[f64],
    orders: &[u8],
    i: usize,
    j: usize,
    temperature: f64,
    out: &mut [f64],
    counts: &mut [u8],
) -> u8
    ensures { let s : QuantumLists = record { count = count; m = m.now; sheets = sheets.now; orders = orders.now } in
        let l : Lent = record { values = out.old; numbers = counts.old } in
        let q = vrq_radii s i j temperature l in
        (result ≡ status q) × (out.new ≡ (stored l q).values) × (counts.new ≡ (stored l q).numbers) }
{
    domthelv::domthelv_vrq_radii(count, m, sheets, orders, i, j, temperature, out, counts)
}

// Quantum energies: hard sphere, dispersion, non-additive (+0 where not wanted). 1, 4, then 2, 6, 7.
#[unsafe(no_mangle)]
pub extern "C" fn domthelv_vrq_energies(
    count: usize,
    m: &[f64],
    sheets: &[f64],
    orders: &[u8],
    temperature: f64,
    fractions: &[f64],
    densities: &[f64],
    table: &[f64],
    non_additive: bool,
    out: &mut [f64],
) -> u8
    ensures { let s : QuantumLists = record { count = count; m = m.now; sheets = sheets.now; orders = orders.now } in
        let q = vrq_energies s temperature fractions.now densities.now table.now non_additive out.old in
        (result ≡ status q) × (out.new ≡ stored out.old q) }
{
    domthelv::domthelv_vrq_energies(
        count,
        m,
        sheets,
        orders,
        temperature,
        fractions,
        densities,
        table,
        non_additive,
        out,
    )
}

// Quantum energies as one number: the sum of hard sphere and dispersion and its remainder, then that sum with the non-additive part and its remainder (where not wanted, the first sum again and +0). 1, 4, then 2, 6, 7.
#[unsafe(no_mangle)]
pub extern "C" fn domthelv_vrq_total(
    count: usize,
    m: &[f64],
    sheets: &[f64],
    orders: &[u8],
    temperature: f64,
    fractions: &[f64],
    densities: &[f64],
    table: &[f64],
    non_additive: bool,
    out: &mut [f64],
) -> u8
    ensures { let s : QuantumLists = record { count = count; m = m.now; sheets = sheets.now; orders = orders.now } in
        let q = vrq_total s temperature fractions.now densities.now table.now non_additive out.old in
        (result ≡ status q) × (out.new ≡ stored out.old q) }
{
    domthelv::domthelv_vrq_total(
        count,
        m,
        sheets,
        orders,
        temperature,
        fractions,
        densities,
        table,
        non_additive,
        out,
    )
}

// A pair's diameter from its searched radii. 1, 4, then 2, 6, 7.
#[unsafe(no_mangle)]
pub extern "C" fn domthelv_vrq_diameter(
    count: usize,
    m: &[f64],
    sheets: &[f64],
    orders: &[u8],
    i: usize,
    j: usize,
    temperature: f64,
    sigma_eff: f64,
    r0: f64,
    out: &mut f64,
) -> u8
    ensures { let s : QuantumLists = record { count = count; m = m.now; sheets = sheets.now; orders = orders.now } in
        let q = vrq_diameter s i j temperature sigma_eff r0 in
        (result ≡ status q) × (out.new ≡ stored out.old q) }
{
    domthelv::domthelv_vrq_diameter(
        count,
        m,
        sheets,
        orders,
        i,
        j,
        temperature,
        sigma_eff,
        r0,
        out,
    )
}

// From component lists to energies, with a table of its own. 1 for `out`, then the parameters' refusals, the table's, the energies'.
#[unsafe(no_mangle)]
pub extern "C" fn domthelv_vrq_stage(
    count: usize,
    m: &[f64],
    sigma: &[f64],
    epsilon_k: &[f64],
    lr: &[f64],
    la: &[f64],
    mass: &[f64],
    order: &[u8],
    k_ij: &[f64],
    l_ij: &[f64],
    temperature: f64,
    fractions: &[f64],
    densities: &[f64],
    non_additive: bool,
    out: &mut [f64],
) -> u8
    ensures { let x : Quantum.Lists =
        record {
          count = count;
          m = m.now;
          sigma = sigma.now;
          epsilon_k = epsilon_k.now;
          lr = lr.now;
          la = la.now;
          mass = mass.now;
          fh = order.now;
          k_ij = k_ij.now;
          l_ij = l_ij.now;
        } in
        let q = vrq_stage x temperature fractions.now densities.now non_additive out.old in
        (result ≡ status q) × (out.new ≡ stored out.old q) }
{
    domthelv::domthelv_vrq_stage(
        count,
        m,
        sigma,
        epsilon_k,
        lr,
        la,
        mass,
        order,
        k_ij,
        l_ij,
        temperature,
        fractions,
        densities,
        non_additive,
        out,
    )
}
