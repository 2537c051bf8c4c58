// The two-ended calls of both models at the C boundary.
ghost use Rattle.std.specs.Prelude.{◌≡◌};
ghost use Rattle.mie_parameters.specs.Answer.{status, stored};
ghost use Rattle.set_lists.specs.Sets.{QuantumLists, MieLists};
ghost use Rattle.domthelv.specs.Operations.{vrq_energies_ends, vrq_diameter_ends, vr_dispersion_ends, vr_diameter_ends};

// Two ends of the quantum energies: low and high end of each. 1, 4, then 2, 6, 7, 8.
#[unsafe(no_mangle)]
pub extern "C" fn domthelv_vrq_energies_ends(
    count: usize,
    m: &[f64],
    sheets: &[f64],
    orders: &[u8],
    temperature: f64,
    fractions: &[f64],
    densities: &[f64],
    table: &[f64],
    non_additive: bool,
    out: &mut [f64],
) -> u8
    ensures { let s : QuantumLists = record { count = count; m = m.now; sheets = sheets.now; orders = orders.now } in
        let q = vrq_energies_ends s temperature fractions.now densities.now table.now non_additive out.old in
        (result ≡ status q) × (out.new ≡ stored out.old q) }
{
    domthelv::domthelv_vrq_energies_ends(
        count,
        m,
        sheets,
        orders,
        temperature,
        fractions,
        densities,
        table,
        non_additive,
        out,
    )
}

// Two ends of a pair's diameter from its searched radii. 1, 4, then 2, 6, 7, 8.
#[unsafe(no_mangle)]
pub extern "C" fn domthelv_vrq_diameter_ends(
    count: usize,
    m: &[f64],
    sheets: &[f64],
    orders: &[u8],
    i: usize,
    j: usize,
    temperature: f64,
    sigma_eff: f64,
    r0: f64,
    out: &mut [f64],
) -> u8
    ensures { let s : QuantumLists = record { count = count; m = m.now; sheets = sheets.now; orders = orders.now } in
        let q = vrq_diameter_ends s i j temperature sigma_eff r0 out.old in
        (result ≡ status q) × (out.new ≡ stored out.old q) }
{
    domthelv::domthelv_vrq_diameter_ends(
        count,
        m,
        sheets,
        orders,
        i,
        j,
        temperature,
        sigma_eff,
        r0,
        out,
    )
}

// Two ends of dispersion, with the chain where it is wanted. 1, 2, 6, 7, 8.
#[unsafe(no_mangle)]
pub extern "C" fn domthelv_vr_dispersion_ends(
    count: usize,
    lists: &[f64],
    sheets: &[f64],
    temperature: f64,
    fractions: &[f64],
    densities: &[f64],
    diameters: &[f64],
    chain: bool,
    out: &mut [f64],
) -> u8
    ensures { let s : MieLists = record { count = count; lists = lists.now; sheets = sheets.now } in
        let q = vr_dispersion_ends s temperature fractions.now densities.now diameters.now chain out.old in
        (result ≡ status q) × (out.new ≡ stored out.old q) }
{
    domthelv::domthelv_vr_dispersion_ends(
        count,
        lists,
        sheets,
        temperature,
        fractions,
        densities,
        diameters,
        chain,
        out,
    )
}

// Two ends of a pair's diameter from its reduced lower limit. 1, 2, 6, 7, 8.
#[unsafe(no_mangle)]
pub extern "C" fn domthelv_vr_diameter_ends(
    count: usize,
    lists: &[f64],
    sheets: &[f64],
    i: usize,
    j: usize,
    temperature: f64,
    r0: f64,
    out: &mut [f64],
) -> u8
    ensures { let s : MieLists = record { count = count; lists = lists.now; sheets = sheets.now } in
        let q = vr_diameter_ends s i j temperature r0 out.old in
        (result ≡ status q) × (out.new ≡ stored out.old q) }
{
    domthelv::domthelv_vr_diameter_ends(count, lists, sheets, i, j, temperature, r0, out)
}
